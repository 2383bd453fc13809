ghost use Rattle.std.specs.Prelude.{◌≡◌};
ghost use Rattle.tb_front.specs.Holders.{holder, longer, IsLater};

use crate::front::{Entry, Front, FrontSeat};
use crate::pass::{Note, Pass};
use crate::steps::{Confirm, Load, SplitNote, TakeIn};
use crate::writer::Draft;
use std::marker::Model;

/// Who knows what the drafts that it adopted knew, and hands it on to passes. Its list grows by
/// drafts alone. A front has one.
#[derive(Drop)]
pub struct Keeper<E: Entry> {
    pub(crate) seat: FrontSeat<E>,
}

impl<E: Entry> Model for Keeper<E> {
    ghost use Rattle.tb_front.specs.Holders.{Holder};

    ghost Value = { Holder E E.Start };

    ghost use Rattle.tb_front.specs.Seats.{holder_of, IsAs};
    ghost use Rattle.tb_front.specs.declared.view.Role.TheVariants.{Keeper};

    ghost view = { λ k. holder_of k.seat };

    ghost invariant = { λ k. IsAs Keeper k.seat };
}

impl<E: Entry> Keeper<E> {
    /// Makes the keeper's list the longer of its own and the draft's. Tells that both had one base,
    /// and that the new list begins with either.
    pub fn adopt(&mut self, front: &Front<E>, draft: Draft<E>)
        requires front { self.old.name ≡ front.now }
        requires draft { draft.name ≡ front.now }
        ensures list { self.new
            ≡ holder self.old.name self.old.start (longer self.old.list draft.list) }
        ensures own { IsLater self.old self.new }
        ensures draft { IsLater draft self.new }
    {
        let Draft { seat } = draft;
        front.table.shared.join_seat::<TakeIn>(&mut self.seat, seat);
        front.table.shared.load::<Load>(&mut self.seat, 0);
    }

    /// A pass with the keeper's list.
    pub fn pass(&mut self, front: &Front<E>) -> Pass<E>
        requires { self.old.name ≡ front.now }
        ensures same { self.new ≡ self.old }
        ensures pass { result ≡ self.old }
    {
        Pass {
            seat: front.table.shared.split_seat::<SplitNote>(&mut self.seat),
        }
    }

    // A note with the keeper's list.
    pub(crate) fn note(&mut self, front: &Front<E>) -> Note<E>
        requires { self.old.name ≡ front.now }
        ensures same { self.new ≡ self.old }
        ensures note { result ≡ self.old }
    {
        Note {
            seat: front.table.shared.split_seat::<SplitNote>(&mut self.seat),
        }
    }

    /// Tells that the pass has the keeper's base, and a beginning of the keeper's list. Both lists
    /// stay.
    pub fn confirm(&mut self, front: &Front<E>, pass: &mut Pass<E>)
        requires front { self.old.name ≡ front.now }
        requires pass { pass.old.name ≡ front.now }
        ensures same { (self.new ≡ self.old) × (pass.new ≡ pass.old) }
        ensures behind { IsLater pass.old self.old }
    {
        let Note { seat } = pass.note(front);
        front
            .table
            .shared
            .join_seat::<Confirm>(&mut self.seat, seat);
        front.table.shared.load::<Load>(&mut self.seat, 0);
    }
}
