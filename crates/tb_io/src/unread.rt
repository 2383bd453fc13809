// What a source in memory has left.

ghost use Rattle.std.specs.Prelude.{◌≡◌, ◌<◌, ◌≤◌, Some, IfOk, length, min, take};
ghost use Rattle.tb_io.specs.PiecedSource.{left_after, piece_of};
ghost use Rattle.tb_io.specs.Sources.{Reads};

use crate::read::Read;
use std::alloc::Global;
use std::marker::Model;
use tb_base::Memory;

/// Bytes that are given once, from the first on. It is seen as those that are left.
#[derive(Drop)]
pub(crate) struct Unread {
    bytes: Vec<u8>,
    next: usize,
}

impl Model for Unread {
    ghost use Rattle.std.specs.Prelude.{ℕ, ◌≤◌, List, drop, length};

    ghost Value = { List ℕ };

    ghost view = { λ u. drop u.next u.bytes.items };

    ghost invariant = { λ u. u.next ≤ length u.bytes.items };
}

// Copies the first bytes to the front of a buffer.
fn copy_piece(from: &[u8], n: usize, buf: &mut [u8])
    requires enough { n ≤ length from.now }
    requires room { n ≤ length buf.old }
    ensures { take n buf.new ≡ take n from.now }
{
    buf[..n].copy_from_slice(&from[..n]);
}

impl Unread {
    /// All of these bytes. It takes memory for them.
    pub(crate) fn new(alloc: Global, bytes: &[u8]) -> Result<Unread, Memory>
        ensures { IfOk result (λ unread. unread ≡ bytes.now) }
    {
        let bytes = Vec::from_slice(alloc, bytes)?;
        Ok(Unread { bytes, next: 0 })
    }

    /// The bytes left.
    pub(crate) fn left(&self) -> &[u8]
        ensures { result.now ≡ self.now }
    {
        &self.bytes[self.next..]
    }

    /// Gives the next bytes: as many as are allowed, are asked for and are left.
    pub(crate) fn give(&mut self, most: usize, buf: &mut [u8]) -> Read
        requires allowed { 0 < most }
        requires asked { 0 < length buf.old }
        ensures reads { Reads result (Some self.old) (Some self.new) buf.new }
        ensures exact { result ≡ piece_of (min (min most (length buf.old)) (length self.old)) }
        ensures left { self.new ≡ left_after self.old result }
    {
        let n = most.min(buf.len()).min(self.bytes.len() - self.next);
        if n == 0 {
            return Read::End;
        }
        copy_piece(&self.bytes[self.next..], n, buf);
        self.next += n;
        Read::Got(n)
    }
}
