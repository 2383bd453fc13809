// What a run is asked for, once its files are read.

use tb_command::{Owner, Population, Service};
use tb_release::Release;
use tb_script::Script;
use tb_text::Setup;

/// A census: the setup, and release 0 of the microdata.
#[derive(Drop)]
pub struct Census {
    pub setup: Setup,
    pub release: Release,
}

/// A census, and a script over it.
#[derive(Drop)]
pub struct Scripted {
    pub census: Census,
    pub script: Script,
}

/// The lines that are answered: those of a script, one after another or its lanes at the same time;
/// those that come at ports; or those of a generated script, whose replies are summed up.
#[derive(Drop)]
pub enum AskedLines {
    Script(Script),
    Lanes(Script),
    Ports(Service),
    Sums {
        population: Population,
        script: Script,
    },
}

/// What a run is asked for: the census, who owns the chain of its releases, and the lines that are
/// answered. Lanes and sums are a custodian's.
#[derive(Drop)]
pub struct Asked<'a> {
    pub census: Census,
    pub owner: Owner<'a>,
    pub lines: AskedLines,
}
