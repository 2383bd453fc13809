// Several pieces, one after another.

ghost use Rattle.std.specs.Prelude.{◌≡◌, ◌+◌, ◌≤◌, ◌++◌, IfSome, length, map, take};
ghost use Rattle.std.specs.List.{concat};
ghost use Rattle.tb_io.specs.Taken.{IsWritten};

use crate::answers::Wrote;
use crate::sink::Sink;

// Pieces of at most so many bytes are put together: each line that isn't a table's has fewer.
const ROOM: usize = 128;

// Copies a piece to the place `at`.
fn put_at(line: &mut [u8], at: usize, piece: &[u8])
    requires { at + length piece.now ≤ length line.old }
    ensures text { take (at + length piece.now) line.new ≡ take at line.old ++ piece.now }
    ensures long { length line.new ≡ length line.old }
{
    line[at..at + piece.len()].copy_from_slice(piece);
}

// Puts the pieces together, one after another, and returns how many bytes they are, where there is
// room for them.
fn put_together(line: &mut [u8; ROOM], pieces: &[&[u8]]) -> Option<usize>
    ensures within { IfSome result (λ len. len ≤ length line.new) }
    ensures text { IfSome result
        (λ len. take len line.new ≡ concat (map (λ p. p.now) pieces.now)) }
{
    let mut len = 0;
    for piece in pieces {
        if piece.len() > ROOM - len {
            return None;
        }
        put_at(line, len, piece);
        len += piece.len();
    }
    Some(len)
}

// Writes the pieces one by one.
fn write_each<O: Sink>(out: &mut O, pieces: &[&[u8]]) -> Wrote
    ensures written { IsWritten result (O.faults out.old) (O.faults out.new) (O.taken out.old)
        (O.taken out.new) (concat (map (λ p. p.now) pieces.now)) }
{
    for piece in pieces {
        match out.write(piece) {
            Wrote::All => {}
            Wrote::Failed => return Wrote::Failed,
        }
    }
    Wrote::All
}

/// Writes some pieces, one after another, as far as the sink takes them: in one write where they
/// are short. It takes no memory.
pub fn write_all<O: Sink>(out: &mut O, pieces: &[&[u8]]) -> Wrote
    ensures written { IsWritten result (O.faults out.old) (O.faults out.new) (O.taken out.old)
        (O.taken out.new) (concat (map (λ p. p.now) pieces.now)) }
{
    let mut line = [0; ROOM];
    match put_together(&mut line, pieces) {
        Some(len) => out.write(&line[..len]),
        None => write_each(out, pieces),
    }
}
