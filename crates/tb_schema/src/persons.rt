// The limit of persons.

ghost use Rattle.std.specs.Prelude.{◌≡◌, ◌≤◌};
ghost use Rattle.tb_base.specs.declared.people.TheConstants.{MOST_PERSONS};
ghost use Rattle.tb_schema.specs.PersonLimits.{limit_of};

use std::marker::Model;
use tb_base::{MOST_PERSONS, read_number};

/// How many persons there may be at most: a number up to `MOST_PERSONS`.
#[derive(Drop)]
pub struct PersonLimit {
    most: usize,
}

impl Model for PersonLimit {
    ghost use Rattle.std.specs.Prelude.{◌≤◌, ℕ};
    ghost use Rattle.tb_base.specs.declared.people.TheConstants.{MOST_PERSONS};

    ghost Value = { ℕ };

    ghost view = { λ l. l.most };

    ghost invariant = { λ l. l.most ≤ MOST_PERSONS };
}

impl PersonLimit {
    /// This number.
    pub fn of(most: usize) -> PersonLimit
        requires { most ≤ MOST_PERSONS }
        ensures { result ≡ most }
    {
        PersonLimit { most }
    }

    /// The number.
    pub fn most(&self) -> usize
        ensures value { result ≡ self.now }
        ensures few { self.now ≤ MOST_PERSONS }
    {
        self.most
    }
}

/// The limit that a label is: a number from 1 to `MOST_PERSONS`.
pub fn read_limit(label: &[u8]) -> Option<PersonLimit>
    ensures { result ≡ limit_of label.now }
{
    let most = read_number(label)? as usize;
    if most >= 1 && most <= MOST_PERSONS {
        Some(PersonLimit::of(most))
    } else {
        None
    }
}
