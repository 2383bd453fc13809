// A line that is put together from its end to its start, as the digits of a number come.

ghost use Rattle.std.specs.Prelude.{◌≡◌, ◌+◌, ◌≤◌, ◌<◌, ◌∷◌, ◌++◌, [], length, decimal, OnOk};
ghost use Rattle.std.specs.Fmt.{signed_decimal};
ghost use Rattle.tb_gen.specs.declared.line.TheConstants.{ROOM};

use itoa::write_digits;
use std::marker::Model;
use tb_base::Memory;

// So many bytes have room in a line.
const ROOM: usize = 80;

/// The end of a line, seen as its bytes. What is put in it stands in front of them.
#[derive(Drop)]
pub(crate) struct Line {
    bytes: [u8; ROOM],
    start: usize,
}

impl Model for Line {
    ghost use Rattle.std.specs.Prelude.{ℕ, List, ◌≤◌, drop};

    ghost Value = { List ℕ };

    ghost view = { λ l. drop l.start l.bytes };

    ghost invariant = { λ l. l.start ≤ 80 };
}

impl Line {
    /// A line feed alone.
    #[inline]
    pub(crate) fn end() -> Line
        ensures { result ≡ 10 ∷ [] }
    {
        let mut bytes = [0; ROOM];
        bytes[ROOM - 1] = b'\n';
        Line {
            bytes,
            start: ROOM - 1,
        }
    }

    #[inline]
    pub(crate) fn put_byte(&mut self, byte: u8)
        requires { length self.old + 1 ≤ ROOM }
        ensures { self.new ≡ byte ∷ self.old }
    {
        self.start -= 1;
        self.bytes[self.start] = byte;
    }

    /// Puts the digits of a number, which are at most ten.
    #[inline]
    pub(crate) fn put_number(&mut self, number: u32)
        requires { length self.old + 10 ≤ ROOM }
        ensures digits { self.new ≡ decimal number ++ self.old }
        ensures short { length self.new ≤ length self.old + 10 }
    {
        self.start = write_digits(u64::from(number), &mut self.bytes, self.start);
    }

    /// Puts a minus sign before the digits of a number that is below 0.
    #[inline]
    pub(crate) fn put_signed(&mut self, number: i32)
        requires { length self.old + 11 ≤ ROOM }
        ensures digits { self.new ≡ signed_decimal number ++ self.old }
        ensures short { length self.new ≤ length self.old + 11 }
    {
        self.put_number(number.unsigned_abs());
        if number < 0 {
            self.put_byte(b'-');
        }
    }

    pub(crate) fn put_text(&mut self, text: &[u8])
        requires { length text.now + length self.old ≤ ROOM }
        ensures { self.new ≡ text.now ++ self.old }
    {
        let start = self.start - text.len();
        self.bytes[start..self.start].copy_from_slice(text);
        self.start = start;
    }

    /// Adds the line to a file.
    #[inline]
    pub(crate) fn add_to(&self, file: &mut Vec<u8>) -> Result<(), Memory>
        ensures { OnOk result (file.new.items ≡ file.old.items ++ self.now) }
    {
        file.extend_from_slice(&self.bytes[self.start..])?;
        Ok(())
    }
}
