// The places with Total, from those without. The counts are summed modulo 2 ^ 32, so no bound is
// asked here: whoever knows that a sum is small knows it exactly.

ghost use Rattle.std.specs.Prelude.{◌≡◌, ℕ, ◌+◌, ◌-◌, ◌*◌, ◌%◌, ◌<◌, ◌≤◌, ◌⊎◌, ◌^◌, length, drop};
ghost use Rattle.std.specs.List.{sum_by, range_with_len};
ghost use Rattle.tb_base.specs.Parts.{modulus, part_at, Part};
ghost use Rattle.tb_model.specs.RowMajor.{product};
ghost use Rattle.tb_grid.specs.Totals.{total_at, AreSome, AreTotals, WereTotals};
ghost use Rattle.tb_grid.specs.Signs.{plain, totalled, IsSigned};

use crate::products::places_from;
use tb_base::Cell;

// Whether totals are added up, or taken out again.
#[derive(Clone, Copy)]
enum Sign {
    Plus,
    Minus,
}

// Adds a row of m cells to a later one, or takes it out of it.
fn signed_row(cells: &mut [Cell], from: usize, to: usize, m: usize, sign: Sign)
    requires apart { from + m ≤ to }
    requires inside { to + m ≤ length cells.old }
    ensures row { (p : Part) (r : ℕ) → r < m
        → IsSigned sign (modulus p) (part_at p cells.old (from + r))
        (part_at p cells.old (to + r)) (part_at p cells.new (to + r)) }
    ensures rest { (p : Part) (i : ℕ) → (i < to) ⊎ (to + m ≤ i)
        → part_at p cells.new i ≡ part_at p cells.old i }
{
    for r in 0..m {
        let one = cells[from + r];
        match sign {
            Sign::Plus => cells[to + r].add(one),
            Sign::Minus => cells[to + r].subtract(one),
        }
    }
}

// Adds all but the last of n rows of m cells to the last, or takes them out of it.
fn signed_rows(cells: &mut [Cell], start: usize, n: usize, m: usize, sign: Sign)
    requires some { 0 < n }
    requires inside { start + n * m ≤ length cells.old }
    ensures last { (p : Part) (r : ℕ) → r < m
        → IsSigned sign (modulus p)
        (sum_by (λ e. part_at p cells.old (start + e * m + r)) (range_with_len 0 (n - 1)))
        (part_at p cells.old (start + (n - 1) * m + r))
        (part_at p cells.new (start + (n - 1) * m + r)) }
    ensures rest { (p : Part) (i : ℕ) → (i < start + (n - 1) * m) ⊎ (start + n * m ≤ i)
        → part_at p cells.new i ≡ part_at p cells.old i }
{
    let last = start + (n - 1) * m;
    for e in 0..n - 1 {
        signed_row(cells, start + e * m, last, m, sign);
    }
}

// The same in each of the blocks of n rows of m cells.
fn signed_blocks(cells: &mut [Cell], blocks: usize, n: usize, m: usize, sign: Sign)
    requires some { 0 < n }
    requires inside { blocks * (n * m) ≤ length cells.old }
    ensures last { (p : Part) (o r : ℕ) → o < blocks → r < m
        → IsSigned sign (modulus p)
        (sum_by (λ e. part_at p cells.old (o * (n * m) + e * m + r)) (range_with_len 0 (n - 1)))
        (part_at p cells.old (o * (n * m) + (n - 1) * m + r))
        (part_at p cells.new (o * (n * m) + (n - 1) * m + r)) }
    ensures rest { (p : Part) (o q r : ℕ) → o < blocks → q < n - 1 → r < m
        → part_at p cells.new (o * (n * m) + q * m + r)
        ≡ part_at p cells.old (o * (n * m) + q * m + r) }
{
    for block in 0..blocks {
        signed_rows(cells, block * (n * m), n, m, sign);
    }
}

// Sums over the dimensions from d on, in each of the blocks of their places, or undoes the sums:
// then from the first dimension to the last, where sums go from the last to the first.
fn signed_from(cells: &mut [Cell], sizes: &[usize], d: usize, blocks: usize, sign: Sign)
    requires depth { d ≤ length sizes.now }
    requires some { AreSome sizes.now }
    requires places { product sizes.now < 2 ^ 64 }
    requires whole { blocks * product (drop d sizes.now) ≡ length cells.old }
    requires few { 0 < blocks }
    ensures { (p : Part) (o r : ℕ) → o < blocks → r < product (drop d sizes.now)
        → part_at p (totalled sign cells.old cells.new) (o * product (drop d sizes.now) + r)
        % modulus p
        ≡ total_at (drop d sizes.now) (λ j. part_at p (plain sign cells.old cells.new)
        (o * product (drop d sizes.now) + j)) r % modulus p }
{
    if d == sizes.len() {
        return;
    }
    let n = sizes[d];
    let m = places_from(sizes, d + 1);
    match sign {
        Sign::Plus => {
            signed_from(cells, sizes, d + 1, blocks * n, Sign::Plus);
            signed_blocks(cells, blocks, n, m, Sign::Plus);
        }
        Sign::Minus => {
            signed_blocks(cells, blocks, n, m, Sign::Minus);
            signed_from(cells, sizes, d + 1, blocks * n, Sign::Minus);
        }
    }
}

/// Adds up the places with Total in a table of dimensions of these sizes, the last entry of each
/// being Total: each cell becomes the sum of the cells of the places that lie in its place. It
/// takes no memory.
pub fn add_totals(cells: &mut [Cell], sizes: &[usize])
    requires some { AreSome sizes.now }
    requires whole { product sizes.now ≡ length cells.old }
    ensures { AreTotals sizes.now cells.old cells.new }
{
    signed_from(cells, sizes, 0, 1, Sign::Plus);
}

/// Undoes `add_totals`: the cells become those of which `add_totals` makes the old ones. It takes
/// no memory.
pub fn take_totals(cells: &mut [Cell], sizes: &[usize])
    requires some { AreSome sizes.now }
    requires whole { product sizes.now ≡ length cells.old }
    ensures { WereTotals sizes.now cells.old cells.new }
{
    signed_from(cells, sizes, 0, 1, Sign::Minus);
}
