// The cells of columns of places and of record keys: one place's cell by vectors, with a plain loop
// for the rest, and the cells of a few places.
//
// A lane sums modulo the number of its type, so a loop's invariant is one equation modulo it, and
// no lane needs a bound; what the count may be is asked once, at the end (`proofs/LaneSums`).

ghost use Rattle.std.specs.Prelude.{◌≡◌, ◌*◌, ◌≤◌, length, map, take, All};
ghost use Rattle.tb_base.specs.declared.people.TheConstants.{MOST_PERSONS};
ghost use Rattle.tb_base.specs.Cells.{IsReduced};
ghost use Rattle.tb_base.specs.Tallies.{tally_of, AreTallied};

use crate::cells::Cell;
use crate::keys::MOST_KEYS;
use crate::records::Record;
use std::simd::prelude::*;

/// How many records are tallied at a time.
pub const CHUNK: usize = 256;

/// Up to this many cells are tallied, each by itself; of more the records are put in one by one.
pub const MOST_TALLIED: usize = 8;

// How many positions one vector takes.
const LANES: usize = 16;

// The cell of a place, where the positions fill whole vectors. A lane of the counts is a sum modulo
// 2 ^ 32, as a cell's count is, and a lane of the sums one of keys modulo 2 ^ 16, which `MOST_KEYS`
// divides.
fn by_lanes(places: &[u32], keys: &[u16], place: u32, vectors: usize) -> Cell
    requires whole { length places.now ≡ vectors * LANES }
    requires same { length keys.now ≡ length places.now }
    requires few { length places.now ≤ MOST_PERSONS }
    ensures { result ≡ tally_of place places.now keys.now }
{
    let mut counts = u32x16::splat(0);
    let mut sums = u16x16::splat(0);
    for i in 0..vectors {
        let at = i * LANES;
        let here = u32x16::from_slice(&places[at..]).simd_eq(u32x16::splat(place));
        let ones = here.select(u32x16::splat(1), u32x16::splat(0));
        let theirs = here
            .cast::<i16>()
            .select(u16x16::from_slice(&keys[at..]), u16x16::splat(0));
        counts += ones;
        sums += theirs;
    }
    Cell {
        count: counts.reduce_sum(),
        key: sums.reduce_sum() % MOST_KEYS,
    }
}

/// The cell of the positions whose place is `place`: how many they are, and the sum of their keys
/// modulo `MOST_KEYS`. It takes no memory.
pub fn tally(places: &[u32], keys: &[u16], place: u32) -> Cell
    requires same { length keys.now ≡ length places.now }
    requires few { length places.now ≤ MOST_PERSONS }
    ensures { result ≡ tally_of place places.now keys.now }
{
    let vectors = places.len() / LANES;
    let whole = vectors * LANES;
    let mut cell = by_lanes(&places[..whole], &keys[..whole], place, vectors);
    for i in whole..places.len() {
        if places[i] == place {
            cell.put(keys[i]);
        }
    }
    cell
}

/// Writes the keys of a chunk's records into a column.
pub fn write_keys(chunk: &[Record], keys: &mut [u16; CHUNK])
    requires { length chunk.now ≤ CHUNK }
    ensures { take (length chunk.now) keys.new ≡ map (λ r. r.key) chunk.now }
{
    for i in 0..chunk.len() {
        keys[i] = chunk[i].key;
    }
}

/// Merges each cell with the tally of its number: a position whose place is past the cells is in
/// none. It takes no memory.
pub fn add_tallies(cells: &mut [Cell], places: &[u32], keys: &[u16])
    requires cells { length cells.old ≤ MOST_TALLIED }
    requires same { length keys.now ≡ length places.now }
    requires few { length places.now ≤ MOST_PERSONS }
    ensures tallied { AreTallied cells.old places.now keys.now cells.new }
    ensures reduced { All IsReduced cells.new }
{
    for place in 0..cells.len() {
        let more = tally(places, keys, place as u32);
        cells[place].add(more);
    }
}
