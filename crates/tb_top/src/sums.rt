// What a text comes to: its line feeds, its bytes, and the sum of their values.

ghost use Rattle.std.specs.Prelude.{◌≡◌, ◌==◌, ◌++◌, ℕ, List, Some, if◌then◌else◌};
ghost use Rattle.tb_top.specs.Summing.{AreSums};

/// How many line feeds and bytes a text has, and the sum of its byte values modulo 2^32.
#[derive(Clone, Copy)]
pub(crate) struct Sums {
    pub(crate) line_feeds: u64,
    pub(crate) bytes: u64,
    pub(crate) byte_sum: u32,
}

// How many line feeds a byte is.
fn feeds_in(byte: u8) -> u64
    ensures { result ≡ if byte == 10 then 1 else 0 }
{
    if byte == b'\n' { 1 } else { 0 }
}

impl Sums {
    /// Those of no text.
    pub(crate) const NONE: Sums = Sums {
        line_feeds: 0,
        bytes: 0,
        byte_sum: 0,
    };

    /// Those of a piece of text, which it goes over once.
    pub(crate) fn of(piece: &[u8]) -> Sums
        ensures { AreSums (Some result) piece.now }
    {
        let mut line_feeds = 0_u64;
        let mut byte_sum = 0_u32;
        for byte in piece {
            line_feeds += feeds_in(*byte);
            byte_sum = byte_sum.wrapping_add(u32::from(*byte));
        }
        Sums {
            line_feeds,
            bytes: piece.len() as u64,
            byte_sum,
        }
    }

    /// Those of a text and what comes after it, unless there are more bytes than are counted.
    pub(crate) fn and(&self, more: &Sums) -> Option<Sums>
        ensures { (text piece : List ℕ) → AreSums (Some self.now) text
            → AreSums (Some more.now) piece → AreSums result (text ++ piece) }
    {
        let line_feeds = self.line_feeds.checked_add(more.line_feeds)?;
        let bytes = self.bytes.checked_add(more.bytes)?;
        Some(Sums {
            line_feeds,
            bytes,
            byte_sum: self.byte_sum.wrapping_add(more.byte_sum),
        })
    }
}
