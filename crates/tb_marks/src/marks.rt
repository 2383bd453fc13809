// Marks at the places to which a number leads.

ghost use Rattle.std.specs.Prelude.{◌≡◌, ◌+◌, ◌<◌, ◌≤◌, ◌==◌, cond, drop, length, not};
ghost use Rattle.tb_base.specs.Parts.{part, weight, Part};
ghost use Rattle.tb_marks.specs.Marks.{AreMarked};
ghost use Rattle.tb_marks.specs.Raised.{meets, AreRaised};

use tb_base::Cell;

// The cell of a thing of this key where it wasn't counted yet, and of none where it was.
#[inline]
fn cell_of_new(counted: bool, key: u16) -> Cell
    ensures { (p : Part) → part p result ≡ cond (not counted) (weight p key) 0 }
{
    if counted {
        Cell::empty()
    } else {
        Cell { count: 1, key }
    }
}

// Counts the thing of a stamp and a key at a place, unless it was counted there. It is the same
// work in both cases, since which one comes can't be foretold.
#[inline]
fn mark_at(x: usize, stamp: u32, key: u16, seen: &mut [u32], cells: &mut [Cell])
    requires place { x < length cells.old }
    requires long { length seen.old ≡ length cells.old }
    ensures { AreMarked (λ i. x == i) stamp key seen.old cells.old seen.new cells.new }
{
    let more = cell_of_new(seen[x] == stamp, key);
    seen[x] = stamp;
    cells[x].add(more);
}

// Counts it at the places to which a number leads by the last dimension, `d`.
#[inline]
fn mark_last(
    sizes: &[usize],
    ups: &[u32],
    d: usize,
    x: usize,
    stamp: u32,
    key: u16,
    seen: &mut [u32],
    cells: &mut [Cell],
)
    requires last { d + 1 ≡ length sizes.now }
    requires place { x < length cells.old }
    requires ups { AreRaised sizes.now (length cells.old) ups.now }
    requires long { length seen.old ≡ length cells.old }
    ensures { AreMarked (meets (drop d sizes.now) x) stamp key
        seen.old cells.old seen.new cells.new }
{
    let up = ups[d * cells.len() + x] as usize;
    mark_at(x, stamp, key, seen, cells);
    mark_at(up, stamp, key, seen, cells);
}

// The same by the last two dimensions, of which `d` is the first.
#[inline]
fn mark_last_two(
    sizes: &[usize],
    ups: &[u32],
    d: usize,
    x: usize,
    stamp: u32,
    key: u16,
    seen: &mut [u32],
    cells: &mut [Cell],
)
    requires last { d + 2 ≡ length sizes.now }
    requires place { x < length cells.old }
    requires ups { AreRaised sizes.now (length cells.old) ups.now }
    requires long { length seen.old ≡ length cells.old }
    ensures { AreMarked (meets (drop d sizes.now) x) stamp key
        seen.old cells.old seen.new cells.new }
{
    let up = ups[d * cells.len() + x] as usize;
    mark_last(sizes, ups, d + 1, x, stamp, key, seen, cells);
    mark_last(sizes, ups, d + 1, up, stamp, key, seen, cells);
}

// Counts it at the places to which a number leads by the dimensions from `d` on. Most tables have
// one or two: for these all is written out.
fn mark_from(
    sizes: &[usize],
    ups: &[u32],
    d: usize,
    x: usize,
    stamp: u32,
    key: u16,
    seen: &mut [u32],
    cells: &mut [Cell],
)
    requires depth { d ≤ length sizes.now }
    requires place { x < length cells.old }
    requires ups { AreRaised sizes.now (length cells.old) ups.now }
    requires long { length seen.old ≡ length cells.old }
    ensures { AreMarked (meets (drop d sizes.now) x) stamp key
        seen.old cells.old seen.new cells.new }
{
    if d == sizes.len() {
        mark_at(x, stamp, key, seen, cells);
        return;
    }
    if d + 1 == sizes.len() {
        mark_last(sizes, ups, d, x, stamp, key, seen, cells);
        return;
    }
    if d + 2 == sizes.len() {
        mark_last_two(sizes, ups, d, x, stamp, key, seen, cells);
        return;
    }
    let up = ups[d * cells.len() + x] as usize;
    mark_from(sizes, ups, d + 1, x, stamp, key, seen, cells);
    mark_from(sizes, ups, d + 1, up, stamp, key, seen, cells);
}

/// Counts the thing of a stamp and a key at the places to which a number leads, at each unless it
/// was counted there. `sizes` are those of the dimensions where there are totals, and none where
/// there are none. It takes no memory.
pub fn mark(
    sizes: &[usize],
    ups: &[u32],
    x: usize,
    stamp: u32,
    key: u16,
    seen: &mut [u32],
    cells: &mut [Cell],
)
    requires place { x < length cells.old }
    requires ups { AreRaised sizes.now (length cells.old) ups.now }
    requires long { length seen.old ≡ length cells.old }
    ensures { AreMarked (meets sizes.now x) stamp key seen.old cells.old seen.new cells.new }
{
    mark_from(sizes, ups, 0, x, stamp, key, seen, cells);
}
