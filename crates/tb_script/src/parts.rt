// A script's parts as they are kept.
//
// One copy of all lines' bytes and a place for each line, no string for each, since a script may
// have 16 MiB.

ghost use Rattle.std.specs.Prelude.{◌≡◌, ◌≢◌, ◌+◌, ◌<◌, ◌≤◌, ◌∷◌, ◌++◌, [], Some, true, false};
ghost use Rattle.std.specs.Prelude.{bytes_eq, length, map, not, slice_get, string_bytes};
ghost use Rattle.std.specs.Prelude.{IfOk, IfErr, OnOk, MatchOption};
ghost use Rattle.indexmap.specs.IndexSet.{insert_key};
ghost use Rattle.tb_script.specs.Parts.{AreKept, parts_value};
ghost use Rattle.tb_script.specs.Scripts.{is_too_many, lanes_of};
ghost use Rattle.tb_io.specs.declared.limits.TheConstants.{MOST_LINE_BYTES};

use crate::limits::MOST_LANES;
use crate::line::LaneLine;
use indexmap::IndexSet;
use std::alloc::Global;
use tb_base::Memory;
use tb_io::MOST_LINE_BYTES;

/// Where a lane's line stands: its phase, the number of its lane, and where its bytes begin and
/// how many there are.
#[derive(Clone, Copy)]
pub struct Place {
    pub phase: u32,
    pub lane: u16,
    pub len: u16,
    pub start: usize,
}

/// The lanes' names in the order of first appearance, the bytes of all lanes' lines one after
/// another, the places of the lines among them, and how many phases there are.
#[derive(Drop)]
pub struct Parts {
    pub lanes: IndexSet<String>,
    pub texts: Vec<u8>,
    pub places: Vec<Place>,
    pub phases: u32,
}

// The number of a lane, which is added if it is new; none where there are too many.
fn add_lane(
    alloc: Global,
    lanes: &mut IndexSet<String>,
    name: &str,
) -> Result<Option<usize>, Memory>
    requires few { length lanes.old.keys ≤ MOST_LANES }
    ensures few { OnOk result (length lanes.new.keys ≤ MOST_LANES) }
    ensures number { let names = map string_bytes lanes.old.keys in IfOk result (λ o.
        MatchOption o (is_too_many names name.now ≡ true) (λ n.
        (is_too_many names name.now ≡ false)
        × (map string_bytes lanes.new.keys ≡ insert_key bytes_eq names name.now)
        × (slice_get (map string_bytes lanes.new.keys) n ≡ Some name.now))) }
{
    match lanes.get_index_of(name) {
        Some(n) => Ok(Some(n)),
        None => {
            if lanes.len() >= MOST_LANES {
                return Ok(None);
            }
            let name = String::from_str(alloc, name)?;
            let (n, _) = lanes.insert_full(name)?;
            Ok(Some(n))
        }
    }
}

// Adds a line of the lane of a number.
fn push(parts: &mut Parts, lane: u16, text: &[u8]) -> Result<(), Memory>
    requires { length text.now ≤ MOST_LINE_BYTES }
    ensures lanes { parts.new.lanes ≡ parts.old.lanes }
    ensures phases { parts.new.phases ≡ parts.old.phases }
    ensures texts { OnOk result (parts.new.texts.items ≡ parts.old.texts.items ++ text.now) }
    ensures places { OnOk result (parts.new.places.items ≡ parts.old.places.items ++ record {
      phase = parts.old.phases;
      lane = lane;
      len = length text.now;
      start = length parts.old.texts.items;
    } ∷ []) }
{
    let start = parts.texts.len();
    parts.texts.extend_from_slice(text)?;
    parts.places.push(Place {
        phase: parts.phases,
        lane,
        len: text.len() as u16,
        start,
    })?;
    Ok(())
}

impl Parts {
    /// No lines, in one phase, with room for so many bytes of lines.
    pub fn with_room(alloc: Global, bytes: usize) -> Result<Parts, Memory>
        ensures kept { IfOk result AreKept }
        ensures value { IfOk result
            (λ parts. parts_value parts ≡ record { lines = []; phases = 1 }) }
    {
        Ok(Parts {
            lanes: IndexSet::new(alloc),
            texts: Vec::with_capacity(alloc, bytes)?,
            places: Vec::new(alloc),
            phases: 1,
        })
    }

    /// Ends a phase.
    pub fn end_phase(&mut self)
        requires few { self.old.phases < u32.MAX }
        requires kept { AreKept self.old }
        ensures kept { AreKept self.new }
        ensures value { parts_value self.new ≡ record {
          lines = (parts_value self.old).lines;
          phases = self.old.phases + 1;
        } }
    {
        self.phases += 1;
    }

    /// Adds a lane's line, and returns whether it could: not where there are too many lanes.
    pub fn add(&mut self, alloc: Global, one: LaneLine<'_>) -> Result<bool, Memory>
        requires long { length one.text.now ≤ MOST_LINE_BYTES }
        requires kept { AreKept self.old }
        ensures room { IfOk result (λ room. room
            ≡ not (is_too_many (lanes_of (parts_value self.old).lines) one.entry.name.now)) }
        ensures kept { IfOk result (λ room. room ≡ true → AreKept self.new) }
        ensures value { IfOk result (λ room. room ≡ true → parts_value self.new ≡ record {
          lines = (parts_value self.old).lines ++ record {
            phase = self.old.phases;
            lane = one.entry.name.now;
            line = one.entry.text.now;
          } ∷ [];
          phases = self.old.phases;
        }) }
    {
        match add_lane(alloc, &mut self.lanes, one.name)? {
            Some(lane) => {
                push(self, lane as u16, one.text)?;
                Ok(true)
            }
            None => Ok(false),
        }
    }
}
