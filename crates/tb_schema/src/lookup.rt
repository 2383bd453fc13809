// The places of texts among the keys of a map and of a set.

ghost use Rattle.std.specs.Prelude.{◌≡◌, ◌<◌, None, length, map as map_list, string_bytes, IfSome};
ghost use Rattle.std.specs.Prelude.{IsUtf8};
ghost use Rattle.std.specs.Option.{ForSome};
ghost use Rattle.std.specs.HashMap.{keys};
ghost use Rattle.tb_schema.specs.Names.{place_in};

use indexmap::{IndexMap, IndexSet};
use std::str;

// Up to so many keys are compared one by one: that takes less time than a hash.
const FEW_KEYS: usize = 8;

// The place of a text among the keys of a map, compared one by one.
fn compare_keys<V>(map: &IndexMap<String, V>, text: &[u8]) -> Option<usize>
    ensures place { result ≡ place_in (map_list string_bytes (keys map.now)) text.now }
    ensures within { IfSome result (λ i. i < length map.now.entries) }
{
    map.keys().position(|key| text == key.as_bytes())
}

/// The place of a text among the keys of a map.
pub fn find_key<V>(map: &IndexMap<String, V>, text: &[u8]) -> Option<usize>
    ensures place { result ≡ place_in (map_list string_bytes (keys map.now)) text.now }
    ensures within { IfSome result (λ i. i < length map.now.entries) }
{
    if map.len() <= FEW_KEYS {
        return compare_keys(map, text);
    }
    let Ok(text) = str::from_utf8(text) else {
        return None;
    };
    map.get_index_of(text)
}

/// The place of a text in a set.
pub fn find_in_set(set: &IndexSet<String>, text: &[u8]) -> Option<usize>
    ensures place { result ≡ place_in (map_list string_bytes set.now.keys) text.now }
    ensures within { IfSome result (λ i. i < length set.now.keys) }
{
    let Ok(text) = str::from_utf8(text) else {
        return None;
    };
    set.get_index_of(text)
}

/// A small place as a number.
pub fn number(place: Option<usize>) -> Option<u16>
    requires { ForSome place (λ i. i < 65536) }
    ensures { result ≡ place }
{
    match place {
        Some(i) => Some(i as u16),
        None => None,
    }
}
