// Edits from a payload: each function takes what it reads off the front, and hands on what is left.

ghost use Rattle.std.specs.Prelude.{◌≡◌, ◌≤◌, nat_eq};
ghost use Rattle.std.specs.List.{list_any};
ghost use Rattle.std.specs.Int.{w16, w32};
ghost use Rattle.tb_spelling.specs.Fields.{Gives, many_at, number_at, pair_at, signed_at};
ghost use Rattle.tb_spelling.specs.Payloads.{IsRead, variables_set};
ghost use Rattle.tb_spelling.specs.Reading.{add_at, amend_at, codes_at, drop_at, edit_at, edits_in};
ghost use Rattle.tb_spelling.specs.Reading.{are_distinct, is_count, pvalue_at, sets_at};
ghost use Rattle.tb_spelling.specs.Reading.{oldest_at, threshold_at};

use crate::fault::PayloadFault;
use crate::limits::MOST_PARTS;
use smallvec::SmallVec;
use std::alloc::Global;
use tb_base::Codes;
use tb_release::{Edit, Edits, MOST_EDITS, Pushed, Sets};

fn u16_at(bytes: &[u8]) -> Result<(u16, &[u8]), PayloadFault>
    ensures { Gives (λ x. (x.0, x.1.now)) result (number_at w16 bytes.now) }
{
    match bytes.split_first_chunk::<2>() {
        Some((front, rest)) => Ok((u16::from_be_bytes(*front), rest)),
        None => Err(PayloadFault::Bad),
    }
}

fn u32_at(bytes: &[u8]) -> Result<(u32, &[u8]), PayloadFault>
    ensures { Gives (λ x. (x.0, x.1.now)) result (number_at w32 bytes.now) }
{
    match bytes.split_first_chunk::<4>() {
        Some((front, rest)) => Ok((u32::from_be_bytes(*front), rest)),
        None => Err(PayloadFault::Bad),
    }
}

fn i16_at(bytes: &[u8]) -> Result<(i16, &[u8]), PayloadFault>
    ensures { Gives (λ x. (x.0, x.1.now)) result (signed_at bytes.now) }
{
    let (bits, rest) = u16_at(bytes)?;
    Ok((bits.cast_signed(), rest))
}

fn setting_at(bytes: &[u8]) -> Result<((u16, u16), &[u8]), PayloadFault>
    ensures { Gives (λ x. (x.0, x.1.now)) result
        (pair_at (number_at w16) (number_at w16) bytes.now) }
{
    let (variable, rest) = u16_at(bytes)?;
    let (category, rest) = u16_at(rest)?;
    Ok(((variable, category), rest))
}

// So many codes. Up to `MOST_PARTS` take no memory.
fn many_codes(
    alloc: Global,
    count: u16,
    bytes: &[u8],
) -> Result<(SmallVec<u16, MOST_PARTS>, &[u8]), PayloadFault>
    ensures { Gives (λ x. (x.0.items, x.1.now)) result
        (many_at (number_at w16) count bytes.now) }
{
    let mut codes = SmallVec::new(alloc);
    let mut rest = bytes;
    for _ in 0..count {
        let (code, after) = u16_at(rest)?;
        codes.push(code)?;
        rest = after;
    }
    Ok((codes, rest))
}

// So many settings. Up to `MOST_PARTS` take no memory.
fn many_settings(
    alloc: Global,
    count: u16,
    bytes: &[u8],
) -> Result<(SmallVec<(u16, u16), MOST_PARTS>, &[u8]), PayloadFault>
    ensures { Gives (λ x. (x.0.items, x.1.now)) result
        (many_at (pair_at (number_at w16) (number_at w16)) count bytes.now) }
{
    let mut sets = SmallVec::new(alloc);
    let mut rest = bytes;
    for _ in 0..count {
        let (set, after) = setting_at(rest)?;
        sets.push(set)?;
        rest = after;
    }
    Ok((sets, rest))
}

fn codes_at(alloc: Global, bytes: &[u8]) -> Result<(Codes, &[u8]), PayloadFault>
    ensures { Gives (λ x. (x.0, x.1.now)) result (codes_at bytes.now) }
{
    let (count, rest) = u16_at(bytes)?;
    let (codes, rest) = many_codes(alloc, count, rest)?;
    let codes = Codes::of(alloc, codes.as_slice())?;
    Ok((codes, rest))
}

// Whether some settings are of a variable.
fn is_set(sets: &[(u16, u16)], variable: u16) -> bool
    ensures { result ≡ list_any (nat_eq variable) (variables_set sets.now) }
{
    for set in sets {
        if set.0 == variable {
            return true;
        }
    }
    false
}

// Whether settings set no variable twice.
fn set_once(sets: &[(u16, u16)]) -> bool
    ensures { result ≡ are_distinct (variables_set sets.now) }
{
    let mut left = sets;
    while let [set, others @ ..] = left {
        if is_set(others, set.0) {
            return false;
        }
        left = others;
    }
    true
}

fn sets_at(alloc: Global, bytes: &[u8]) -> Result<(Sets, &[u8]), PayloadFault>
    ensures { Gives (λ x. (x.0, x.1.now)) result (sets_at bytes.now) }
{
    let (count, rest) = u16_at(bytes)?;
    if count == 0 {
        return Err(PayloadFault::Bad);
    }
    let (sets, rest) = many_settings(alloc, count, rest)?;
    if !set_once(sets.as_slice()) {
        return Err(PayloadFault::Bad);
    }
    let sets = Sets::of(alloc, sets.as_slice())?;
    Ok((sets, rest))
}

fn add_at(alloc: Global, bytes: &[u8]) -> Result<(Edit, &[u8]), PayloadFault>
    ensures { Gives (λ x. (x.0, x.1.now)) result (add_at bytes.now) }
{
    let (person, rest) = u32_at(bytes)?;
    let (key, rest) = u16_at(rest)?;
    let (codes, rest) = codes_at(alloc, rest)?;
    Ok((Edit::Add { person, key, codes }, rest))
}

fn drop_at(bytes: &[u8]) -> Result<(Edit, &[u8]), PayloadFault>
    ensures { Gives (λ x. (x.0, x.1.now)) result (drop_at bytes.now) }
{
    let (person, rest) = u32_at(bytes)?;
    Ok((Edit::Drop { person }, rest))
}

fn amend_at(alloc: Global, bytes: &[u8]) -> Result<(Edit, &[u8]), PayloadFault>
    ensures { Gives (λ x. (x.0, x.1.now)) result (amend_at bytes.now) }
{
    let (person, rest) = u32_at(bytes)?;
    let (sets, rest) = sets_at(alloc, rest)?;
    Ok((Edit::Amend { person, sets }, rest))
}

fn pvalue_at(bytes: &[u8]) -> Result<(Edit, &[u8]), PayloadFault>
    ensures { Gives (λ x. (x.0, x.1.now)) result (pvalue_at bytes.now) }
{
    let (row, rest) = u16_at(bytes)?;
    let (key, rest) = u16_at(rest)?;
    let (pvalue, rest) = i16_at(rest)?;
    Ok((Edit::Pvalue { row, key, pvalue }, rest))
}

fn threshold_at(bytes: &[u8]) -> Result<(Edit, &[u8]), PayloadFault>
    ensures { Gives (λ x. (x.0, x.1.now)) result (threshold_at bytes.now) }
{
    let (value, rest) = u32_at(bytes)?;
    Ok((Edit::Threshold { value }, rest))
}

fn oldest_at(bytes: &[u8]) -> Result<(Edit, &[u8]), PayloadFault>
    ensures { Gives (λ x. (x.0, x.1.now)) result (oldest_at bytes.now) }
{
    let (release, rest) = u32_at(bytes)?;
    Ok((Edit::Oldest { release }, rest))
}

fn edit_at(alloc: Global, bytes: &[u8]) -> Result<(Edit, &[u8]), PayloadFault>
    ensures { Gives (λ x. (x.0, x.1.now)) result (edit_at bytes.now) }
{
    let [kind, fields @ ..] = bytes else {
        return Err(PayloadFault::Bad);
    };
    match *kind {
        1 => add_at(alloc, fields),
        2 => drop_at(fields),
        3 => amend_at(alloc, fields),
        4 => pvalue_at(fields),
        5 => threshold_at(fields),
        6 => oldest_at(fields),
        _ => Err(PayloadFault::Bad),
    }
}

// So many edits.
fn many_edits(alloc: Global, count: u32, bytes: &[u8]) -> Result<(Edits, &[u8]), PayloadFault>
    requires { count ≤ MOST_EDITS }
    ensures { Gives (λ x. (x.0, x.1.now)) result (many_at edit_at count bytes.now) }
{
    let mut edits = Edits::new(alloc);
    let mut rest = bytes;
    for _ in 0..count {
        let (edit, after) = edit_at(alloc, rest)?;
        match edits.push(edit) {
            Ok(()) => {}
            Err(Pushed::Full(_)) => unreachable!(),
            Err(Pushed::Memory(_)) => return Err(PayloadFault::Memory),
        }
        rest = after;
    }
    Ok((edits, rest))
}

// Whether a payload may have so many edits.
fn is_count(count: u32) -> bool
    ensures { result ≡ is_count count }
{
    count > 0 && count as usize <= MOST_EDITS
}

fn edits_in(alloc: Global, bytes: &[u8]) -> Result<Edits, PayloadFault>
    ensures { Gives (λ x. x) result (edits_in bytes.now) }
{
    let (count, rest) = u32_at(bytes)?;
    if !is_count(count) {
        return Err(PayloadFault::Bad);
    }
    let (edits, rest) = many_edits(alloc, count, rest)?;
    if !rest.is_empty() {
        return Err(PayloadFault::Bad);
    }
    Ok(edits)
}

/// The edits whose payload the bytes are, all of them; `Bad` where they are that of no edits. It
/// takes memory for the edits.
pub fn read_payload(alloc: Global, bytes: &[u8]) -> Result<Edits, PayloadFault>
    ensures { IsRead bytes.now result }
{
    edits_in(alloc, bytes)
}
