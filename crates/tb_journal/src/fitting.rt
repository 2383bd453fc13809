// Whether recovered edits fit a setup.

ghost use Rattle.std.specs.Prelude.{◌≡◌, ◌≤◌, ◌<◌, ◌↔◌, true, nat_le, nat_lt, ◌&&◌, All};
ghost use Rattle.std.specs.List.{list_all};
ghost use Rattle.tb_journal.specs.Fitting.{FitsSetup, is_in_range};
ghost use Rattle.tb_base.specs.Keys.{key_range};

use tb_base::{Keys, Shape};
use tb_release::{Edit, Edits, edits_fit};

/// Whether edits fit a setup: persons are from 1 on, variables, categories and keys are in range,
/// an add has one code of each variable, and edits of the rules are in range. It takes no memory.
pub fn fits(shape: &Shape, keys: Keys, edits: &Edits) -> bool
    ensures { (result ≡ true) ↔ All (FitsSetup shape.now keys) edits.now }
{
    edits_fit(shape, edits) && are_in_range(keys, edits)
}

// Whether the persons of all edits are from 1 on, and their keys in the key range.
fn are_in_range(keys: Keys, edits: &Edits) -> bool
    ensures { result ≡ list_all (is_in_range keys) edits.now }
{
    for i in 0..edits.len() {
        if !is_in_range(keys, edits.at(i)) {
            return false;
        }
    }
    true
}

fn is_in_range(keys: Keys, edit: &Edit) -> bool
    ensures { result ≡ is_in_range keys edit.now }
{
    match edit {
        Edit::Add {
            person,
            key,
            codes: _,
        } => *person > 0 && *key < keys.size(),
        Edit::Drop { person } => *person > 0,
        Edit::Amend { person, sets: _ } => *person > 0,
        Edit::Pvalue {
            row: _,
            key,
            pvalue: _,
        } => *key < keys.size(),
        Edit::Threshold { value: _ } => true,
        Edit::Oldest { release: _ } => true,
    }
}
