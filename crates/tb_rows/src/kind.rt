// How a kind of fault is printed.

ghost use Rattle.std.specs.Prelude.{◌≡◌};
ghost use Rattle.tb_rows.specs.FaultNames.{FaultNameValue};

use std::marker::Model;

/// The number and the word with which a kind of fault is printed.
#[derive(Debug, Drop)]
pub struct FaultName {
    number: u8,
    word: &'static str,
}

impl Model for FaultName {
    ghost use Rattle.tb_rows.specs.FaultNames.{FaultNameValue};

    ghost Value = { FaultNameValue };

    ghost view = { λ n. record { number = n.number; word = n.word.now } };
}

impl FaultName {
    /// This number and this word.
    pub fn new(number: u8, word: &'static str) -> FaultName
        ensures { result ≡ record { number = number; word = word.now } }
    {
        FaultName { number, word }
    }

    /// The number.
    pub fn number(&self) -> u8
        ensures { result ≡ self.now.number }
    {
        self.number
    }

    /// The word.
    pub fn word(&self) -> &'static str
        ensures { result.now ≡ self.now.word }
    {
        self.word
    }
}

/// A kind of fault of a file, which is printed by its number and its word.
pub trait FaultKind {
    ghost name_of: { Self → FaultNameValue };

    /// The number and the word.
    fn name(&self) -> FaultName
        ensures { result ≡ name_of self.now };
}
