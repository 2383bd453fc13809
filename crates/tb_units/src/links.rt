// Links, looked up by their persons.

ghost use Rattle.std.specs.Prelude.{◌≡◌, ◌≤◌, false, length, IfNone, IfSome};
ghost use Rattle.tb_base.specs.declared.people.TheConstants.{MOST_PERSONS};
ghost use Rattle.tb_units.specs.Pairs.{has_first, IsAt};

use crate::pairs::Pairs;
use crate::slots::Slots;
use std::alloc::Global;
use std::marker::Model;

/// How a person's link is found: by one access, or by hash where the persons are too far apart.
#[derive(Drop)]
enum Form {
    Slots(Slots),
    Pairs(Pairs),
}

/// Links in their order, no two of one person.
#[derive(Drop)]
pub struct Links {
    form: Form,
}

impl Model for Links {
    ghost use Rattle.std.specs.Prelude.{List};
    ghost use Rattle.tb_model.specs.Units.{PairValue};
    ghost use Rattle.tb_units.specs.Forms.{links_in};

    ghost Value = { List PairValue };

    ghost view = { λ l. links_in l.form };
}

impl Links {
    /// These links, in the form that finds them fastest within their room.
    pub fn of(alloc: Global, mut links: Pairs) -> Links
        requires { length links ≤ MOST_PERSONS }
        ensures { result ≡ links }
    {
        match Slots::of(alloc, &links) {
            Some(slots) => Links {
                form: Form::Slots(slots),
            },
            None => {
                links.shrink();
                Links {
                    form: Form::Pairs(links),
                }
            }
        }
    }

    /// How many links there are.
    pub fn len(&self) -> usize
        ensures { result ≡ length self.now }
    {
        match &self.form {
            Form::Slots(slots) => slots.len(),
            Form::Pairs(pairs) => pairs.len(),
        }
    }

    /// The place of a person's link. A look-up by hash begins at a place where the link may be.
    #[inline]
    pub fn find(&self, person: u32, guess: usize) -> Option<usize>
        ensures some { IfSome result (λ k. IsAt self.now person k) }
        ensures none { IfNone result (has_first self.now person ≡ false) }
    {
        match &self.form {
            Form::Slots(slots) => slots.find(person),
            Form::Pairs(pairs) => pairs.find_near(person, guess),
        }
    }
}
