// Dwellings counted at the places to which their persons' numbers lead, at each once.

ghost use Rattle.std.specs.Prelude.{◌≡◌, ℕ, ◌+◌, ◌<◌, ◌≤◌, length, slice_index};
ghost use Rattle.tb_marks.specs.Marks.{AreMarked};
ghost use Rattle.tb_marks.specs.Raised.{AreRaised};
ghost use Rattle.tb_unit_cells.specs.Marking.{home_leads, leads, AreCounted};
ghost use Rattle.tb_units.specs.Pairs.{pair_at};

use tb_base::Cell;
use tb_marks::mark;
use tb_units::Units;

// Counts a dwelling of a stamp and a key at the places to which a number leads; past all places it
// does nothing.
#[inline]
fn mark_number(
    sizes: &[usize],
    ups: &[u32],
    x: usize,
    stamp: u32,
    key: u16,
    seen: &mut [u32],
    cells: &mut [Cell],
)
    requires ups { AreRaised sizes.now (length cells.old) ups.now }
    requires long { length seen.old ≡ length cells.old }
    ensures { AreMarked (leads sizes.now (length cells.old) x) stamp key
        seen.old cells.old seen.new cells.new }
{
    if x < cells.len() {
        mark(sizes, ups, x, stamp, key, seen, cells);
    }
}

// Counts dwelling `d` at the places to which the numbers of its links lead.
fn mark_dwelling(
    units: &Units,
    sizes: &[usize],
    ups: &[u32],
    numbers: &[u32],
    d: usize,
    seen: &mut [u32],
    cells: &mut [Cell],
)
    requires there { d < length units.now.dwellings }
    requires numbers { length numbers.now ≡ length units.now.links }
    requires ups { AreRaised sizes.now (length cells.old) ups.now }
    requires long { length seen.old ≡ length cells.old }
    ensures { AreMarked (home_leads sizes.now (length cells.old) units.now.links numbers.now
        (pair_at units.now.dwellings d).0) (d + 1) (pair_at units.now.dwellings d).1
        seen.old cells.old seen.new cells.new }
{
    units.soundness();
    let key = units.key(d);
    let mut k = units.last_link(d) as usize;
    while k > 0 {
        mark_number(
            sizes,
            ups,
            numbers[k - 1] as usize,
            d as u32 + 1,
            key,
            seen,
            cells,
        );
        k = units.link_before(k - 1) as usize;
    }
}

/// Counts each dwelling at the places to which the numbers of its links lead, at each once; nothing
/// was marked yet. It takes no memory.
pub fn mark_dwellings(
    units: &Units,
    sizes: &[usize],
    ups: &[u32],
    numbers: &[u32],
    seen: &mut [u32],
    cells: &mut [Cell],
)
    requires numbers { length numbers.now ≡ length units.now.links }
    requires ups { AreRaised sizes.now (length cells.old) ups.now }
    requires long { length seen.old ≡ length cells.old }
    requires none { (i : ℕ) → i < length seen.old → slice_index seen.old i ≡ 0 }
    ensures { AreCounted sizes.now units.now numbers.now units.now.dwellings cells.old cells.new }
{
    for d in 0..units.dwellings() {
        mark_dwelling(units, sizes, ups, numbers, d, seen, cells);
    }
}
