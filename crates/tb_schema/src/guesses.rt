// Guesses at the places of texts among the keys of a map, which spare most look-ups a hash.

ghost use Rattle.std.specs.Prelude.{◌≡◌, ◌<◌, ◌≤◌, bytes_eq, length, map as map_list};
ghost use Rattle.std.specs.Prelude.{string_bytes, IfSome};
ghost use Rattle.std.specs.HashMap.{keys};
ghost use Rattle.std.specs.List.{IsDistinct};
ghost use Rattle.tb_schema.specs.Names.{place_in};

use crate::limits::MOST_CATEGORIES;
use crate::lookup::find_key;
use indexmap::IndexMap;
use std::alloc::Global;
use tb_base::Memory;

// A map of at most so many keys has `SLOTS` slots, and a larger one `MANY_SLOTS`.
const FEW_KEYS: usize = 128;

const SLOTS: usize = 1_024;

const MANY_SLOTS: usize = 65_536;

// The slot of a text, one of `slots`, where that is a power of two.
fn slot(text: &[u8], slots: usize) -> usize {
    let mut sum: usize = 0;
    for byte in text {
        sum = sum.wrapping_mul(31).wrapping_add(*byte as usize);
    }
    sum & slots.wrapping_sub(1)
}

/// In the slot of each key of a map, the place of the last key of that slot. A guess may be wrong,
/// so the key at the place is compared.
#[derive(Drop)]
pub struct Guesses {
    places: Vec<u16>,
}

impl Guesses {
    /// Guesses for the keys of a map. It takes memory for the slots.
    pub fn of<V>(alloc: Global, map: &IndexMap<String, V>) -> Result<Guesses, Memory>
        requires { length map.now.entries ≤ MOST_CATEGORIES }
    {
        let slots = if map.len() <= FEW_KEYS {
            SLOTS
        } else {
            MANY_SLOTS
        };
        let mut places = vec![in alloc; 0u16; slots]?;
        for i in 0..map.len() {
            if let Some((key, _)) = map.get_index(i) {
                let at = slot(key.as_bytes(), slots);
                if at < places.len() {
                    places[at] = i as u16;
                }
            }
        }
        Ok(Guesses { places })
    }

    // The place that is guessed for a text.
    fn guess(&self, text: &[u8]) -> usize {
        match self.places.get(slot(text, self.places.len())) {
            Some(place) => *place as usize,
            None => 0,
        }
    }

    /// The place of a text among the keys of a map, which are distinct.
    pub fn find<V>(&self, map: &IndexMap<String, V>, text: &[u8]) -> Option<usize>
        requires { IsDistinct bytes_eq (map_list string_bytes (keys map.now)) }
        ensures place { result ≡ place_in (map_list string_bytes (keys map.now)) text.now }
        ensures within { IfSome result (λ i. i < length map.now.entries) }
    {
        let place = self.guess(text);
        match map.get_index(place) {
            Some((key, _)) if text == key.as_bytes() => Some(place),
            _ => find_key(map, text),
        }
    }
}
