// Edits to bytes.
//
// That an edit's numbers fit their fields follows from their types, and is told as the elements are
// read (`in_format`): so who calls `spell` need not show it.

ghost use Rattle.std.specs.Prelude.{◌≡◌, ◌≤◌, ◌++◌, All, IfOk, OnOk, length};
ghost use Rattle.std.specs.Int.{w16, to_be_bytes};
ghost use Rattle.tb_spelling.specs.declared.limits.TheConstants.{MOST_EDIT_BYTES, MOST_PARTS};
ghost use Rattle.tb_spelling.specs.declared.limits.TheConstants.{MOST_PAYLOAD_BYTES};
ghost use Rattle.tb_spelling.specs.Payloads.{CanBeSpelled, CanBeWritten, InTwoBytes, IsInFormat};
ghost use Rattle.tb_spelling.specs.Payloads.{IsPayload, IsSetting};
ghost use Rattle.tb_spelling.specs.Spelling.{counted, edit_spelled, setting, spelled};

use std::alloc::Global;
use tb_base::{Codes, Memory};
use tb_release::{Edit, Edits, Sets};

// Puts the codes behind what was written.
fn put_codes(out: &mut Vec<u8>, codes: &Codes) -> Result<(), Memory>
    requires { length codes.now ≤ MOST_PARTS }
    ensures bytes { OnOk result
        (out.new.items ≡ out.old.items ++ counted w16 (to_be_bytes w16) codes.now) }
    ensures in_format { OnOk result (All InTwoBytes codes.now) }
{
    out.extend_from_slice(&(codes.len() as u16).to_be_bytes())?;
    for i in 0..codes.len() {
        out.extend_from_slice(&codes.at(i).to_be_bytes())?;
    }
    Ok(())
}

// Puts the settings behind what was written.
fn put_sets(out: &mut Vec<u8>, sets: &Sets) -> Result<(), Memory>
    requires { length sets.now ≤ MOST_PARTS }
    ensures bytes { OnOk result (out.new.items ≡ out.old.items ++ counted w16 setting sets.now) }
    ensures in_format { OnOk result (All IsSetting sets.now) }
{
    out.extend_from_slice(&(sets.len() as u16).to_be_bytes())?;
    for i in 0..sets.len() {
        let (variable, category) = sets.at(i);
        out.extend_from_slice(&variable.to_be_bytes())?;
        out.extend_from_slice(&category.to_be_bytes())?;
    }
    Ok(())
}

// Puts the edit behind what was written.
fn put_edit(out: &mut Vec<u8>, edit: &Edit) -> Result<(), Memory>
    requires { CanBeWritten edit.now }
    ensures bytes { OnOk result (out.new.items ≡ out.old.items ++ edit_spelled edit.now) }
    ensures in_format { OnOk result (IsInFormat edit.now) }
{
    match edit {
        Edit::Add { person, key, codes } => {
            out.push(1)?;
            out.extend_from_slice(&person.to_be_bytes())?;
            out.extend_from_slice(&key.to_be_bytes())?;
            put_codes(out, codes)
        }
        Edit::Drop { person } => {
            out.push(2)?;
            out.extend_from_slice(&person.to_be_bytes())?;
            Ok(())
        }
        Edit::Amend { person, sets } => {
            out.push(3)?;
            out.extend_from_slice(&person.to_be_bytes())?;
            put_sets(out, sets)
        }
        Edit::Pvalue { row, key, pvalue } => {
            out.push(4)?;
            out.extend_from_slice(&row.to_be_bytes())?;
            out.extend_from_slice(&key.to_be_bytes())?;
            out.extend_from_slice(&pvalue.to_be_bytes())?;
            Ok(())
        }
        Edit::Threshold { value } => {
            out.push(5)?;
            out.extend_from_slice(&value.to_be_bytes())?;
            Ok(())
        }
        Edit::Oldest { release } => {
            out.push(6)?;
            out.extend_from_slice(&release.to_be_bytes())?;
            Ok(())
        }
    }
}

// How many bytes an edit has.
fn edit_len(edit: &Edit) -> usize
    requires { CanBeWritten edit.now }
    ensures len { result ≡ length (edit_spelled edit.now) }
    ensures short { result ≤ MOST_EDIT_BYTES }
{
    match edit {
        Edit::Add {
            person: _,
            key: _,
            codes,
        } => 9 + 2 * codes.len(),
        Edit::Drop { person: _ } => 5,
        Edit::Amend { person: _, sets } => 7 + 4 * sets.len(),
        Edit::Pvalue {
            row: _,
            key: _,
            pvalue: _,
        } => 7,
        Edit::Threshold { value: _ } => 5,
        Edit::Oldest { release: _ } => 5,
    }
}

/// How many bytes the payload of edits has, of which each can be written.
pub fn payload_len(edits: &Edits) -> usize
    requires { CanBeSpelled edits.now }
    ensures len { result ≡ length (spelled edits.now) }
    ensures short { result ≤ MOST_PAYLOAD_BYTES }
{
    let mut total = 4;
    for i in 0..edits.len() {
        total += edit_len(edits.at(i));
    }
    total
}

/// Puts the payload of edits, of which each can be written, behind what was written. It takes
/// memory only where there is no room for it.
pub fn spell_behind(out: &mut Vec<u8>, edits: &Edits) -> Result<(), Memory>
    requires { CanBeSpelled edits.now }
    ensures spelled { OnOk result (out.new.items ≡ out.old.items ++ spelled edits.now) }
    ensures payload { OnOk result (IsPayload (spelled edits.now) edits.now) }
{
    out.extend_from_slice(&(edits.len() as u32).to_be_bytes())?;
    for i in 0..edits.len() {
        put_edit(out, edits.at(i))?;
    }
    Ok(())
}

/// The payload of edits of which each can be written, at most `MOST_PAYLOAD_BYTES` bytes. It takes
/// memory for them, once.
pub fn spell(alloc: Global, edits: &Edits) -> Result<Vec<u8>, Memory>
    requires { CanBeSpelled edits.now }
    ensures spelled { IfOk result (λ bytes. bytes.items ≡ spelled edits.now) }
    ensures payload { IfOk result (λ bytes. IsPayload bytes.items edits.now) }
    ensures short { IfOk result (λ bytes. length bytes.items ≤ MOST_PAYLOAD_BYTES) }
{
    let mut out = Vec::with_capacity(alloc, payload_len(edits))?;
    spell_behind(&mut out, edits)?;
    Ok(out)
}
