// Whether records and edits fit a shape.
//
// A shape knows no key range: `next` takes an add with any key below the largest one. The text of
// an edit is refused from the key range on, and the look-up reduces the sum.

ghost use Rattle.std.specs.Prelude.{◌≡◌, ◌≤◌, ◌↔◌, ℕ, true, nat_le, nat_lt, All};
ghost use Rattle.std.specs.List.{list_all};
ghost use Rattle.tb_base.specs.declared.keys.TheConstants.{MOST_KEYS as LIMIT};
ghost use Rattle.tb_base.specs.declared.limits.TheConstants.{MOST_THRESHOLD as THRESHOLD_LIMIT};
ghost use Rattle.tb_base.specs.Records.{AllFit, Fits};
ghost use Rattle.tb_release.specs.declared.edits.Edit.TheVariants as edits;
ghost use Rattle.tb_release.specs.Fitting.{codes_fit, edit_fits as is_fit, edits_fit as are_fit};
ghost use Rattle.tb_release.specs.Fitting.{record_fits as is_record, setting_fits as is_setting};
ghost use Rattle.tb_release.specs.Laws.{EditFits};

use crate::edits::{Edit, Edits, Sets};
use tb_base::{Codes, MOST_KEYS, MOST_THRESHOLD, Record, Shape, may_be_set};

/// Whether a record with this key and these categories fits a shape: its key is below `MOST_KEYS`,
/// and it has one category of each variable, and one that the variable has.
pub fn record_fits(shape: &Shape, key: u16, codes: &Codes) -> bool
    ensures test { result ≡ is_record shape.now key codes.now }
    ensures told { result ≡ true → (person : ℕ)
        → Fits shape.now (record { person = person; key = key; codes = codes.now }) }
{
    is_key(key) && they_fit(shape, codes)
}

/// Whether each of the records fits a shape.
pub fn records_fit(shape: &Shape, records: &[Record]) -> bool
    ensures { (result ≡ true) ↔ AllFit shape.now records.now }
{
    for one in records {
        if !record_fits(shape, one.key, &one.codes) {
            return false;
        }
    }
    true
}

/// Whether settings fit a shape: each is of a variable of the shape, and of a category that it has.
pub fn sets_fit(shape: &Shape, sets: &Sets) -> bool
    ensures test { result ≡ list_all (is_setting shape.now) sets.now }
    ensures told { result ≡ true → (person : ℕ)
        → EditFits shape.now (edits.Amend person sets.now) }
{
    for i in 0..sets.len() {
        let (variable, category) = sets.at(i);
        if !setting_fits(shape, variable, category) {
            return false;
        }
    }
    true
}

/// Whether what an edit adds or sets fits a shape, or, if it is one of the rules, is in range.
pub fn edit_fits(shape: &Shape, edit: &Edit) -> bool
    ensures test { result ≡ is_fit shape.now edit.now }
    ensures told { result ≡ true → EditFits shape.now edit.now }
{
    match edit {
        Edit::Add {
            person: _,
            key,
            codes,
        } => record_fits(shape, *key, codes),
        Edit::Drop { person: _ } => true,
        Edit::Amend { person: _, sets } => sets_fit(shape, sets),
        Edit::Pvalue { row, key, pvalue } => may_be_set(*row, *key, *pvalue),
        Edit::Threshold { value } => is_threshold(*value),
        Edit::Oldest { release: _ } => true,
    }
}

/// Whether what each edit adds or sets fits a shape.
pub fn edits_fit(shape: &Shape, edits: &Edits) -> bool
    ensures test { result ≡ are_fit shape.now edits.now }
    ensures told { result ≡ true → All (EditFits shape.now) edits.now }
{
    for i in 0..edits.len() {
        if !edit_fits(shape, edits.at(i)) {
            return false;
        }
    }
    true
}

// Whether a key is below the largest key range.
fn is_key(key: u16) -> bool
    ensures { result ≡ nat_lt key LIMIT }
{
    key < MOST_KEYS
}

// Whether a threshold is at most the greatest.
fn is_threshold(value: u32) -> bool
    ensures test { result ≡ nat_le value THRESHOLD_LIMIT }
    ensures told { result ≡ true → value ≤ THRESHOLD_LIMIT }
{
    value <= MOST_THRESHOLD
}

// Whether there is one category of each variable, and one that the variable has.
fn they_fit(shape: &Shape, codes: &Codes) -> bool
    ensures { result ≡ codes_fit shape.now codes.now }
{
    if codes.len() != shape.len() {
        return false;
    }
    for i in 0..shape.len() {
        if codes.at(i) >= shape.at(i) {
            return false;
        }
    }
    true
}

fn setting_fits(shape: &Shape, variable: u16, category: u16) -> bool
    ensures { result ≡ is_setting shape.now (variable, category) }
{
    (variable as usize) < shape.len() && category < shape.at(variable as usize)
}
