// The tally of a place beside a plain loop, over columns of each length from none to more than
// four vectors.

use tb_base::{Cell, tally};

// As many positions as the longest columns have.
const LONGEST: usize = 70;

// As many places as stand in the columns; one more stands nowhere.
const PLACES: u32 = 5;

// The cell of a place, one position after another.
fn plain_tally(places: &[u32], keys: &[u16], place: u32) -> Cell {
    let mut cell = Cell::empty();
    for (here, key) in places.iter().zip(keys) {
        if *here == place {
            cell.put(*key);
        }
    }
    cell
}

// Places that come in no even turns, with runs of the same.
fn places() -> [u32; LONGEST] {
    let mut places = [0; LONGEST];
    for i in 0..LONGEST {
        places[i] = (i * i / 3) as u32 % PLACES;
    }
    places
}

// Keys up to 4,095, most of whose sums are above it.
fn keys() -> [u16; LONGEST] {
    let mut keys = [0; LONGEST];
    for i in 0..LONGEST {
        keys[i] = ((i * 2_531 + 4_095) % 4_096) as u16;
    }
    keys
}

#[test]
fn columns_of_every_length(rt: HostRuntime) {
    let (places, keys) = (places(), keys());
    for long in 0..LONGEST + 1 {
        for place in 0..PLACES + 1 {
            let (places, keys) = (&places[..long], &keys[..long]);
            let plain = plain_tally(places, keys, place);
            assert_eq!(rt; tally(places, keys, place), plain);
        }
    }
}
