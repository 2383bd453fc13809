// The edit that words stand for, or its first fault.

ghost use Rattle.std.specs.Prelude.{◌≡◌, ◌<◌, IfErr, IfOk, IfSome, None, Some, if◌then◌else◌};
ghost use Rattle.std.specs.Prelude.{is_none, length};
ghost use Rattle.tb_revise.specs.Faults.{RefusesBy, fault_if, has_unknown_name, refusal};
ghost use Rattle.tb_revise.specs.Faults.{sets_twice, settings_refusal};
ghost use Rattle.tb_revise.specs.Grammar.{NamedAdd, NamedAmend, NamedDrop, NamedPvalue};
ghost use Rattle.tb_revise.specs.Grammar.{NamedOldest, NamedThreshold};
ghost use Rattle.tb_revise.specs.Meanings.{categories_set, category_named, category_set};
ghost use Rattle.tb_revise.specs.Meanings.{edit_meant, sets_meant, variable_named};
ghost use Rattle.tb_revise.specs.Views.{edit_view, setting_view, setting_views};

use crate::fault::EditTextFault;
use crate::parse::{EditWords, Setting};
use std::alloc::Global;
use tb_base::{Codes, MOST_THRESHOLD, may_be_set, read_number, read_signed};
use tb_records::{read_key, read_person};
use tb_release::{Edit, Sets};
use tb_schema::{NameOf, Schema};

// The variable that a setting names, if there is one.
#[tactic(auto, unfolding(crate::specs::Meanings::variable_named))]
fn variable_named(schema: &Schema, s: &Setting) -> Option<u16>
    ensures number { result ≡ variable_named schema.now (setting_view s.now) }
    ensures within { IfSome result (λ v. v < length schema.now.variables) }
{
    match schema.find(s.name) {
        Some(NameOf::Variable(v)) => Some(v),
        _ => None,
    }
}

// The category of that variable whose code a setting gives, if there is one.
#[tactic(auto, unfolding(crate::specs::Meanings::category_named))]
fn category_named(schema: &Schema, variable: u16, s: &Setting) -> Option<u16>
    requires named { variable_named schema.now (setting_view s.now) ≡ Some variable }
    requires within { variable < length schema.now.variables }
    ensures { result ≡ category_named schema.now (setting_view s.now) }
{
    schema.code_of(NameOf::Variable(variable), s.code)
}

// Whether a setting's name is no variable.
fn has_unknown_name(schema: &Schema, settings: &[Setting]) -> bool
    ensures { result ≡ has_unknown_name schema.now (setting_views settings.now) }
{
    for s in settings {
        if variable_named(schema, s).is_none() {
            return true;
        }
    }
    false
}

// The fault where a setting has an unknown code: an unknown name among those after it comes first.
fn unknown_fault(schema: &Schema, others: &[Setting]) -> EditTextFault
    ensures { result ≡ (if has_unknown_name schema.now (setting_views others.now)
        then EditTextFault.UnknownName else EditTextFault.UnknownCode) }
{
    if has_unknown_name(schema, others) {
        EditTextFault::UnknownName
    } else {
        EditTextFault::UnknownCode
    }
}

// The category to which settings set a variable, if they set it.
fn category_set(sets: &[(u16, u16)], variable: u16) -> Option<u16>
    ensures { result ≡ category_set sets.now variable }
{
    for set in sets {
        if set.0 == variable {
            return Some(set.1);
        }
    }
    None
}

// Whether a variable is set twice.
fn sets_twice(sets: &[(u16, u16)]) -> bool
    ensures { result ≡ sets_twice sets.now }
{
    let mut left = sets;
    while let [set, others @ ..] = left {
        if category_set(others, set.0).is_some() {
            return true;
        }
        left = others;
    }
    false
}

// What settings stand for, each a variable and a category.
fn sets_meant(
    alloc: Global,
    schema: &Schema,
    settings: &[Setting],
) -> Result<Vec<(u16, u16)>, EditTextFault>
    ensures meant { IfOk result
        (λ v. v.items ≡ sets_meant schema.now (setting_views settings.now)) }
    ensures no_fault { IfOk result
        (λ _. settings_refusal schema.now (setting_views settings.now) ≡ None) }
    ensures refused { IfErr result
        (λ e. RefusesBy e (settings_refusal schema.now (setting_views settings.now))) }
{
    let mut sets = Vec::with_capacity(alloc, settings.len())?;
    let mut left = settings;
    while let [s, others @ ..] = left {
        let Some(variable) = variable_named(schema, s) else {
            return Err(EditTextFault::UnknownName);
        };
        let Some(category) = category_named(schema, variable, s) else {
            return Err(unknown_fault(schema, others));
        };
        sets.push((variable, category))?;
        left = others;
    }
    if sets_twice(&sets) {
        return Err(EditTextFault::Repeated);
    }
    Ok(sets)
}

// The categories to which settings set so many variables.
fn categories_set(
    alloc: Global,
    sets: &[(u16, u16)],
    variables: u16,
) -> Result<Codes, EditTextFault>
    ensures all { IfOk result (λ codes. categories_set sets.now variables ≡ Some codes) }
    ensures missing { IfErr result (λ e. RefusesBy e
        (fault_if (is_none (categories_set sets.now variables)) EditTextFault.Missing)) }
{
    let mut categories = Vec::with_capacity(alloc, variables as usize)?;
    for v in 0..variables {
        let Some(category) = category_set(sets, v) else {
            return Err(EditTextFault::Missing);
        };
        categories.push(category)?;
    }
    let codes = Codes::of(alloc, &categories)?;
    Ok(codes)
}

// An add of these words.
fn add_meant(
    alloc: Global,
    schema: &Schema,
    person: &[u8],
    key: &[u8],
    settings: &[Setting],
) -> Result<Edit, EditTextFault>
    ensures meant { IfOk result (λ e. e
        ≡ edit_meant schema.now (NamedAdd person.now key.now (setting_views settings.now))) }
    ensures no_fault { IfOk result (λ _.
        refusal schema.now (NamedAdd person.now key.now (setting_views settings.now)) ≡ None) }
    ensures refused { IfErr result (λ e. RefusesBy e
        (refusal schema.now (NamedAdd person.now key.now (setting_views settings.now)))) }
{
    let Some(person) = read_person(person) else {
        return Err(EditTextFault::BadNumber);
    };
    let Some(key) = read_key(schema.keys(), key) else {
        return Err(EditTextFault::BadNumber);
    };
    let sets = sets_meant(alloc, schema, settings)?;
    let codes = categories_set(alloc, &sets, schema.variables())?;
    Ok(Edit::Add { person, key, codes })
}

// A drop of this word.
fn drop_meant(schema: &Schema, person: &[u8]) -> Result<Edit, EditTextFault>
    ensures meant { IfOk result (λ e. e ≡ edit_meant schema.now (NamedDrop person.now)) }
    ensures no_fault { IfOk result (λ _. refusal schema.now (NamedDrop person.now) ≡ None) }
    ensures refused { IfErr result (λ e. RefusesBy e (refusal schema.now (NamedDrop person.now))) }
{
    let Some(person) = read_person(person) else {
        return Err(EditTextFault::BadNumber);
    };
    Ok(Edit::Drop { person })
}

// An amend of these words.
fn amend_meant(
    alloc: Global,
    schema: &Schema,
    person: &[u8],
    settings: &[Setting],
) -> Result<Edit, EditTextFault>
    ensures meant { IfOk result (λ e. e
        ≡ edit_meant schema.now (NamedAmend person.now (setting_views settings.now))) }
    ensures no_fault { IfOk result (λ _.
        refusal schema.now (NamedAmend person.now (setting_views settings.now)) ≡ None) }
    ensures refused { IfErr result (λ e. RefusesBy e
        (refusal schema.now (NamedAmend person.now (setting_views settings.now)))) }
{
    let Some(person) = read_person(person) else {
        return Err(EditTextFault::BadNumber);
    };
    let sets = sets_meant(alloc, schema, settings)?;
    let sets = Sets::of(alloc, &sets)?;
    Ok(Edit::Amend { person, sets })
}

// The setting of a pvalue by these words.
fn pvalue_meant(
    schema: &Schema,
    row: &[u8],
    key: &[u8],
    pvalue: &[u8],
) -> Result<Edit, EditTextFault>
    ensures meant { IfOk result (λ e. e
        ≡ edit_meant schema.now (NamedPvalue row.now key.now pvalue.now)) }
    ensures no_fault { IfOk result (λ _.
        refusal schema.now (NamedPvalue row.now key.now pvalue.now) ≡ None) }
    ensures refused { IfErr result (λ e. RefusesBy e
        (refusal schema.now (NamedPvalue row.now key.now pvalue.now))) }
{
    let row = read_number(row);
    let key = read_key(schema.keys(), key);
    let pvalue = read_signed(pvalue);
    let (Some(row), Some(key), Some(pvalue)) = (row, key, pvalue) else {
        return Err(EditTextFault::BadNumber);
    };
    let (Ok(row), Ok(pvalue)) = (u16::try_from(row), i16::try_from(pvalue)) else {
        return Err(EditTextFault::BadNumber);
    };
    if !may_be_set(row, key, pvalue) {
        return Err(EditTextFault::BadNumber);
    }
    Ok(Edit::Pvalue { row, key, pvalue })
}

// The setting of a threshold by this word.
fn threshold_meant(schema: &Schema, value: &[u8]) -> Result<Edit, EditTextFault>
    ensures meant { IfOk result (λ e. e ≡ edit_meant schema.now (NamedThreshold value.now)) }
    ensures no_fault { IfOk result (λ _. refusal schema.now (NamedThreshold value.now) ≡ None) }
    ensures refused { IfErr result (λ e. RefusesBy e
        (refusal schema.now (NamedThreshold value.now))) }
{
    match read_number(value) {
        Some(value) if value <= MOST_THRESHOLD => Ok(Edit::Threshold { value }),
        _ => Err(EditTextFault::BadNumber),
    }
}

// The taking back of the releases before the one of this word.
fn oldest_meant(schema: &Schema, release: &[u8]) -> Result<Edit, EditTextFault>
    ensures meant { IfOk result (λ e. e ≡ edit_meant schema.now (NamedOldest release.now)) }
    ensures no_fault { IfOk result (λ _. refusal schema.now (NamedOldest release.now) ≡ None) }
    ensures refused { IfErr result (λ e. RefusesBy e
        (refusal schema.now (NamedOldest release.now))) }
{
    let Some(release) = read_number(release) else {
        return Err(EditTextFault::BadNumber);
    };
    Ok(Edit::Oldest { release })
}

/// The edit that the words stand for, or the first fault of what they stand for.
pub fn edit_meant(alloc: Global, schema: &Schema, edit: &EditWords) -> Result<Edit, EditTextFault>
    ensures meant { IfOk result (λ e. e ≡ edit_meant schema.now (edit_view edit.now)) }
    ensures no_fault { IfOk result (λ _. refusal schema.now (edit_view edit.now) ≡ None) }
    ensures refused { IfErr result (λ e. RefusesBy e (refusal schema.now (edit_view edit.now))) }
{
    match edit {
        EditWords::Add {
            person,
            key,
            settings,
        } => add_meant(alloc, schema, person, key, settings),
        EditWords::Drop { person } => drop_meant(schema, person),
        EditWords::Amend { person, settings } => amend_meant(alloc, schema, person, settings),
        EditWords::Pvalue { row, key, pvalue } => pvalue_meant(schema, row, key, pvalue),
        EditWords::Threshold { value } => threshold_meant(schema, value),
        EditWords::Oldest { release } => oldest_meant(schema, release),
    }
}
