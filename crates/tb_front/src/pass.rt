ghost use Rattle.std.specs.Prelude.{◌≡◌};
ghost use Rattle.tb_front.specs.Holders.{holder, longer, IsLater};

use crate::front::{Entry, Front, FrontSeat};
use crate::keeper::Keeper;
use crate::steps::{Load, SplitNote, TakeIn};
use std::marker::Model;

/// A beginning of the keeper's list that was seen. There may be any number.
#[derive(Drop)]
pub struct Pass<E: Entry> {
    pub(crate) seat: FrontSeat<E>,
}

impl<E: Entry> Model for Pass<E> {
    ghost use Rattle.tb_front.specs.Holders.{Holder};

    ghost Value = { Holder E E.Start };

    ghost use Rattle.tb_front.specs.Seats.{holder_of, IsAs};
    ghost use Rattle.tb_front.specs.declared.view.Role.TheVariants.{Pass};

    ghost view = { λ p. holder_of p.seat };

    ghost invariant = { λ p. IsAs Pass p.seat };
}

/// What a pass had seen, for another pass, which may be in another thread.
#[derive(Drop)]
pub struct Note<E: Entry> {
    pub(crate) seat: FrontSeat<E>,
}

impl<E: Entry> Model for Note<E> {
    ghost use Rattle.tb_front.specs.Holders.{Holder};

    ghost Value = { Holder E E.Start };

    ghost use Rattle.tb_front.specs.Seats.{holder_of, IsAs};
    ghost use Rattle.tb_front.specs.declared.view.Role.TheVariants.{Pass};

    ghost view = { λ n. holder_of n.seat };

    ghost invariant = { λ n. IsAs Pass n.seat };
}

impl<E: Entry> Pass<E> {
    /// A note with the pass's list.
    pub fn note(&mut self, front: &Front<E>) -> Note<E>
        requires { self.old.name ≡ front.now }
        ensures same { self.new ≡ self.old }
        ensures note { result ≡ self.old }
    {
        Note {
            seat: front.table.shared.split_seat::<SplitNote>(&mut self.seat),
        }
    }

    /// Makes the pass's list the longer of its own and the note's. Tells that both had one base,
    /// and that the new list begins with either.
    pub fn learn(&mut self, front: &Front<E>, note: Note<E>)
        requires front { self.old.name ≡ front.now }
        requires note { note.name ≡ front.now }
        ensures list { self.new
            ≡ holder self.old.name self.old.start (longer self.old.list note.list) }
        ensures own { IsLater self.old self.new }
        ensures note { IsLater note self.new }
    {
        let Note { seat } = note;
        front.table.shared.join_seat::<TakeIn>(&mut self.seat, seat);
        front.table.shared.load::<Load>(&mut self.seat, 0);
    }

    /// Makes the pass's list the keeper's. Tells that the pass had the keeper's base, and a
    /// beginning of the keeper's list.
    pub fn catch_up(&mut self, front: &Front<E>, keeper: &mut Keeper<E>)
        requires front { self.old.name ≡ front.now }
        requires keeper { keeper.old.name ≡ front.now }
        ensures list { self.new ≡ keeper.old }
        ensures keeper { keeper.new ≡ keeper.old }
        ensures own { IsLater self.old self.new }
    {
        keeper.confirm(front, self);
        let note = keeper.note(front);
        self.learn(front, note);
    }
}
