// Whether records may stand together.

ghost use Rattle.std.specs.Prelude.{◌≡◌, ◌<◌, ◌≤◌, ◌++◌, ℕ, List, true, IfOk, IfSome, OnOk};
ghost use Rattle.std.specs.Prelude.{flat_map, length, map, nat_lt};
ghost use Rattle.std.specs.Bool.{MatchBool};
ghost use Rattle.std.specs.List.Sorted.{IsStrictlyIncreasing};
ghost use Rattle.tb_records.specs.Rising.{RiseTo};
ghost use Rattle.tb_records.specs.WholeFiles.{MayStand};

use rayon::prelude::par_sort;
use std::alloc::Global;
use std::thread::Threads;
use tb_base::{Memory, Record};

// Whether there are at most so many.
fn are_few(lists: &[Vec<Record>], most: usize) -> bool
    ensures { MatchBool result
        (length (flat_map (λ list. list.items) lists.now) ≤ most)
        (most < length (flat_map (λ list. list.items) lists.now)) }
{
    let mut count = 0;
    for list in lists {
        if list.len() > most - count {
            return false;
        }
        count += list.len();
    }
    true
}

// The last person's number, if each record's is above the one before it, and the first above this
// one.
fn last_risen(records: &[Record], above: u32) -> Option<u32>
    ensures { IfSome result (λ last. (before : List ℕ)
        → RiseTo above before → RiseTo last (before ++ map (λ r. r.person) records.now)) }
{
    let mut last = above;
    for one in records {
        if one.person <= last {
            return None;
        }
        last = one.person;
    }
    Some(last)
}

// Whether each record's person has a number above those before it.
fn ascend(lists: &[Vec<Record>]) -> bool
    ensures { result ≡ true → IsStrictlyIncreasing
        (map (λ r. r.person) (flat_map (λ list. list.items) lists.now)) }
{
    let mut last = 0;
    for list in lists {
        let Some(next) = last_risen(list, last) else {
            return false;
        };
        last = next;
    }
    true
}

// Adds the persons of records.
fn add_persons(persons: &mut Vec<u32>, records: &[Record]) -> Result<(), Memory>
    ensures { OnOk result
        (persons.new.items ≡ persons.old.items ++ map (λ r. r.person) records.now) }
{
    for one in records {
        persons.push(one.person)?;
    }
    Ok(())
}

// How many records the lists have together, so that the list of their persons needn't grow. No
// clause speaks of it.
fn room_for_persons(lists: &[Vec<Record>]) -> usize {
    let mut room = 0;
    for list in lists {
        room = usize::saturating_add(room, list.len());
    }
    room
}

// The persons of the records of all lists, in order.
fn persons_of(alloc: Global, lists: &[Vec<Record>]) -> Result<Vec<u32>, Memory>
    ensures { IfOk result (λ persons.
        persons.items ≡ map (λ r. r.person) (flat_map (λ list. list.items) lists.now)) }
{
    let mut persons = Vec::with_capacity(alloc, room_for_persons(lists))?;
    for list in lists {
        add_persons(&mut persons, list)?;
    }
    Ok(persons)
}

// Whether each number is above the one before it.
fn rise(numbers: &[u32]) -> bool
    ensures { MatchBool result
        (IsStrictlyIncreasing numbers.now)
        (IsStrictlyIncreasing numbers.now → ⊥) }
{
    numbers.is_sorted_by(
        |a, b| -> bool
            ensures { result ≡ nat_lt a.now b.now }
        { *a < *b },
    )
}

/// Whether the records of all lists may stand together, so many at most. Where their persons don't
/// ascend, as many threads as there are processors sort a list of them, for which it takes memory.
pub fn may_stand(
    rt: &(impl Threads + Sync),
    alloc: Global,
    lists: &[Vec<Record>],
    most: usize,
) -> Result<bool, Memory>
    ensures { IfOk result (λ may. MatchBool may
        (MayStand most (flat_map (λ list. list.items) lists.now))
        (MayStand most (flat_map (λ list. list.items) lists.now) → ⊥)) }
{
    if !are_few(lists, most) {
        return Ok(false);
    }
    if ascend(lists) {
        return Ok(true);
    }
    let mut persons = persons_of(alloc, lists)?;
    par_sort(rt, alloc, &mut persons)?;
    Ok(rise(&persons))
}
