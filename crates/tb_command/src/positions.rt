// The names of the positions of each row, group by group: those of the inputs, of the dwellings, of
// the owner, and of where lines come from.

ghost use Rattle.std.specs.Prelude.{◌≡◌, map};
ghost use Rattle.tb_command.specs.Positions.{dwellings_positions, gen_positions, inputs_positions};
ghost use Rattle.tb_command.specs.Positions.{lines_positions, owner_positions};

use crate::forms::{Dwellings, LinesFrom, OwnedBy};

static NONE: [&str; 0] = [];

static INPUTS: [&str; 5] = ["CLASSES", "RECODES", "PTABLE", "PEOPLE", "THRESHOLD"];

static UNITS: [&str; 2] = ["DWELLINGS", "LINKS"];

static JOURNAL: [&str; 1] = ["JOURNAL"];

static SCRIPT: [&str; 1] = ["SCRIPT"];

static PORTS: [&str; 3] = ["PORT", "WORKERS", "SESSIONS"];

static GEN: [&str; 2] = ["N", "START"];

/// The positions of the inputs.
pub fn of_inputs() -> &'static [&'static str]
    ensures { map (λ s. s.now) result.now ≡ inputs_positions }
{
    INPUTS.as_slice()
}

/// The positions of `gen`.
pub fn of_gen() -> &'static [&'static str]
    ensures { map (λ s. s.now) result.now ≡ gen_positions }
{
    GEN.as_slice()
}

impl Dwellings {
    /// The positions of the files of dwellings.
    pub fn positions(self) -> &'static [&'static str]
        ensures { map (λ s. s.now) result.now ≡ dwellings_positions self }
    {
        match self {
            Dwellings::Never => NONE.as_slice(),
            Dwellings::Always | Dwellings::OrDashes => UNITS.as_slice(),
        }
    }
}

impl OwnedBy {
    /// The position of the journal, where there is one.
    pub fn positions(self) -> &'static [&'static str]
        ensures { map (λ s. s.now) result.now ≡ owner_positions self }
    {
        match self {
            OwnedBy::Custodian | OwnedBy::Leader => NONE.as_slice(),
            OwnedBy::Journal => JOURNAL.as_slice(),
        }
    }
}

impl LinesFrom {
    /// The positions that say where lines come from.
    pub fn positions(self) -> &'static [&'static str]
        ensures { map (λ s. s.now) result.now ≡ lines_positions self }
    {
        match self {
            LinesFrom::Script | LinesFrom::Lanes => SCRIPT.as_slice(),
            LinesFrom::Ports(_) => PORTS.as_slice(),
        }
    }
}
