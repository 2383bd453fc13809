// A recency list with ample memory. Its order, and what a look finds in it, are worked out by hand.

use std::alloc::Global;
use std::test::Fail;
use tb_base::{Memory, VARIABLES_IN_PLACE, VarSet};
use tb_cache::{CubeCache, MOST_ENTRIES};

enum Deed {
    Put,
    Look,
    Resize,
}

// A deed, its variable, and the number that it puts or the capacity; and the numbers that stand
// then at the sets of variable 0, 1 and 2, or 0 for none.
type Step = (Deed, u16, u32, [u32; 3]);

// From an empty list of two entries on. Beside each step are the sets in their order.
static STEPS: [Step; 9] = [
    (Deed::Put, 0, 1, [1, 0, 0]), // 0
    (Deed::Put, 1, 2, [1, 2, 0]), // 1 0
    (Deed::Look, 0, 0, [1, 2, 0]), // 0 1
    (Deed::Put, 2, 3, [1, 0, 3]), // 2 0
    (Deed::Put, 0, 4, [4, 0, 3]), // 0 2
    (Deed::Put, 1, 5, [4, 5, 0]), // 1 0
    (Deed::Resize, 0, 3, [4, 5, 0]), // 1 0
    (Deed::Put, 2, 6, [4, 5, 6]), // 2 1 0
    (Deed::Resize, 0, 1, [0, 0, 6]), // 2
];

fn steps() -> &'static [Step] {
    &STEPS
}

fn resize(cache: &mut CubeCache<u32>, capacity: u32) -> Result<(), Memory> {
    if capacity == 0 || capacity > MOST_ENTRIES {
        return Err(Memory);
    }
    cache.resize(capacity)
}

// Each value is the number of its release.
fn put(cache: &mut CubeCache<u32>, set: &VarSet, number: u32) -> Result<(), Memory> {
    if set.len() > VARIABLES_IN_PLACE {
        return Err(Memory);
    }
    cache.put(set, number, number)
}

fn make(alloc: Global, cache: &mut CubeCache<u32>, step: &Step) -> Result<(), Memory> {
    let (deed, variable, number, _) = step;
    let set = VarSet::of(alloc, &[*variable])?;
    match deed {
        Deed::Put => put(cache, &set, *number),
        Deed::Look => {
            let _ = cache.look(&set);
            Ok(())
        }
        Deed::Resize => resize(cache, *number),
    }
}

// The number at a set, or 0 for none.
fn number_at(alloc: Global, cache: &CubeCache<u32>, variable: u16) -> Result<u32, Memory> {
    let set = VarSet::of(alloc, &[variable])?;
    Ok(cache.peek(&set).unwrap_or(0))
}

fn is_right(alloc: Global, cache: &CubeCache<u32>, want: &[u32; 3]) -> Result<bool, Memory> {
    let [first, second, third] = want;
    Ok(
        number_at(alloc, cache, 0)? == *first
            && number_at(alloc, cache, 1)? == *second
            && number_at(alloc, cache, 2)? == *third,
    )
}

#[test]
fn entries_in_order(rt: HostRuntime) -> Result<(), Fail> {
    let mut cache = CubeCache::new(rt.alloc(), 2)?;
    for (i, step) in steps().iter().enumerate() {
        make(rt.alloc(), &mut cache, step)?;
        assert!(rt; is_right(rt.alloc(), &cache, &step.3)?, "step {i}");
    }
    Ok(())
}

// The first variable of a set and its last, and the number that is put at it, or 0 for none. Then
// what a look for the set finds, and the number at exactly this set, or 0 for none.
type Look = (u16, u16, u32, u32, u32);

// From an empty list of three entries on. Beside each look are the sets in their order after it.
static LOOKS: [Look; 14] = [
    (0, 1, 1, 1, 1), // 01
    (0, 2, 2, 2, 2), // 02 01
    (0, 0, 0, 2, 0), // 02 01: of two wider sets the first
    (1, 1, 0, 1, 0), // 01 02
    (0, 0, 0, 1, 0), // 01 02: the other is the first now
    (0, 0, 3, 3, 3), // 0 01 02
    (0, 1, 0, 1, 1), // 01 0 02
    (0, 0, 0, 3, 3), // 0 01 02: its own before a wider one in front of it
    (1, 2, 0, 0, 0), // 0 01 02: no set has both
    (4, 4, 4, 4, 4), // 4 0 01
    (2, 2, 0, 0, 0), // 4 0 01: the wider set is gone
    (1, 1, 0, 1, 0), // 01 4 0
    (5, 5, 5, 5, 5), // 5 01 4
    (0, 0, 0, 1, 0), // 01 5 4: its own is gone
];

fn looks() -> &'static [Look] {
    &LOOKS
}

// A set of one variable, or of two.
fn set_of(alloc: Global, first: u16, last: u16) -> Result<VarSet, Memory> {
    if first < last {
        VarSet::of(alloc, &[first, last])
    } else {
        VarSet::of(alloc, &[last])
    }
}

// The number of what is found, or 0 for none.
fn look(cache: &mut CubeCache<u32>, set: &VarSet) -> u32 {
    match cache.look(set) {
        Some((_, number, _)) => number,
        None => 0,
    }
}

// What is put is put, and then the calls that look return these numbers; the one that leaves the
// order goes first.
fn look_is_right(alloc: Global, cache: &mut CubeCache<u32>, row: &Look) -> Result<bool, Memory> {
    let (first, last, number, finds, own) = row;
    let set = set_of(alloc, *first, *last)?;
    if *number > 0 {
        put(cache, &set, *number)?;
    }
    Ok(
        cache.found(&set).unwrap_or(0) == *finds
            && look(cache, &set) == *finds
            && cache.peek(&set).unwrap_or(0) == *own,
    )
}

#[test]
fn wider_sets(rt: HostRuntime) -> Result<(), Fail> {
    let mut cache = CubeCache::new(rt.alloc(), 3)?;
    for (i, row) in looks().iter().enumerate() {
        assert!(rt; look_is_right(rt.alloc(), &mut cache, row)?, "look {i}");
    }
    Ok(())
}
