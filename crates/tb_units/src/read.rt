// Reading dwellings, and who lives in them.

ghost use Rattle.std.specs.Prelude.{◌≡◌, ◌≢◌, ◌≤◌, Ok, Err, IfErr, IfOk};
ghost use Rattle.tb_base.specs.declared.people.TheConstants.{MOST_PERSONS};
ghost use Rattle.tb_units.specs.declared.fault.UnitsFile.TheVariants as file;
ghost use Rattle.tb_units.specs.Faults.{in_file as value_in_file};
ghost use Rattle.tb_units.specs.Dwellings.{dwellings_of};
ghost use Rattle.tb_units.specs.Links.{links_of};

use crate::fault::{UnitsFault, UnitsFile, in_file};
use crate::formats::{DwellingsFile, LinksFile};
use crate::pairs::Pairs;
use std::alloc::Global;
use tb_base::Keys;
use tb_rows::read_file;

// What a file of dwellings says, so many at most, under a key range, or its first fault.
pub(crate) fn read_dwellings(
    alloc: Global,
    most: usize,
    keys: Keys,
    bytes: &[u8],
) -> Result<Pairs, UnitsFault>
    requires { most ≤ MOST_PERSONS }
    ensures ok { IfOk result (λ ds.
        value_in_file file.Dwellings (dwellings_of most keys bytes.now) ≡ Ok ds) }
    ensures refused { IfErr result (λ e. e ≢ UnitsFault.Memory
        → value_in_file file.Dwellings (dwellings_of most keys bytes.now) ≡ Err e) }
{
    in_file(
        UnitsFile::Dwellings,
        read_file(alloc, &DwellingsFile { most, keys }, bytes),
    )
}

// What a file of links, so many at most, over dwellings says, or its first fault.
pub(crate) fn links_over(
    alloc: Global,
    most: usize,
    dwellings: &Pairs,
    bytes: &[u8],
) -> Result<Pairs, UnitsFault>
    requires { most ≤ MOST_PERSONS }
    ensures ok { IfOk result (λ links.
        value_in_file file.Links (links_of most dwellings.now bytes.now) ≡ Ok links) }
    ensures refused { IfErr result (λ e. e ≢ UnitsFault.Memory
        → value_in_file file.Links (links_of most dwellings.now bytes.now) ≡ Err e) }
{
    in_file(
        UnitsFile::Links,
        read_file(alloc, &LinksFile { most, dwellings }, bytes),
    )
}
