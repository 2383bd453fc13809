ghost use Rattle.std.specs.Prelude.{◌≡◌, ◌<◌, [], ◌∷◌, ◌++◌, length, Some};
ghost use Rattle.tb_front.specs.Holders.{holder, IsLater};
ghost use Rattle.tb_front.specs.declared.front.TheConstants.{LONGEST_CHAIN};

use crate::front::{Entry, Front, FrontSeat};
use crate::pass::{Note, Pass};
use crate::steps::{Append, Confirm, Load, OneEntry, SplitDraft};
use std::marker::{Brand, Model};

/// Who adds to the chain, and knows it whole. A front has one.
#[derive(Drop)]
pub struct Writer<E: Entry> {
    pub(crate) seat: FrontSeat<E>,
}

impl<E: Entry> Model for Writer<E> {
    ghost use Rattle.tb_front.specs.Holders.{Holder};

    ghost Value = { Holder E E.Start };

    ghost use Rattle.tb_front.specs.Seats.{holder_of, IsAs};
    ghost use Rattle.tb_front.specs.declared.view.Role.TheVariants.{Writer};

    ghost view = { λ w. holder_of w.seat };

    ghost invariant = { λ w. IsAs Writer w.seat };
}

/// What the writer knew, for the keeper.
#[derive(Drop)]
pub struct Draft<E: Entry> {
    pub(crate) seat: FrontSeat<E>,
}

impl<E: Entry> Model for Draft<E> {
    ghost use Rattle.tb_front.specs.Holders.{Holder};

    ghost Value = { Holder E E.Start };

    ghost use Rattle.tb_front.specs.Seats.{holder_of, IsAs};
    ghost use Rattle.tb_front.specs.declared.view.Role.TheVariants.{Draft};

    ghost view = { λ d. holder_of d.seat };

    ghost invariant = { λ d. IsAs Draft d.seat };
}

impl<E: Entry> Writer<E> {
    /// Adds an entry to the chain, as the last. There must be fewer than `LONGEST_CHAIN`.
    pub fn append(&mut self, front: &Front<E>, entry: &E)
        requires front { self.old.name ≡ front.now }
        requires room { length self.old.list < LONGEST_CHAIN }
        ensures { self.new
            ≡ holder self.old.name self.old.start (self.old.list ++ entry.now ∷ []) }
    {
        append_named::<E, Brand>(self, front, entry);
    }

    /// A draft with the writer's list.
    pub fn draft(&mut self, front: &Front<E>) -> Draft<E>
        requires { self.old.name ≡ front.now }
        ensures same { self.new ≡ self.old }
        ensures draft { result ≡ self.old }
    {
        Draft {
            seat: front.table.shared.split_seat::<SplitDraft>(&mut self.seat),
        }
    }

    /// Tells that the pass has the writer's base, and a beginning of the writer's list. Both lists
    /// stay.
    pub fn confirm(&mut self, front: &Front<E>, pass: &mut Pass<E>)
        requires front { self.old.name ≡ front.now }
        requires pass { pass.old.name ≡ front.now }
        ensures same { (self.new ≡ self.old) × (pass.new ≡ pass.old) }
        ensures behind { IsLater pass.old self.old }
    {
        let Note { seat } = pass.note(front);
        front
            .table
            .shared
            .join_seat::<Confirm>(&mut self.seat, seat);
        front.table.shared.load::<Load>(&mut self.seat, 0);
    }
}

// Appends the entry that `N` names.
fn append_named<E: Entry, N: OneEntry<E>>(writer: &mut Writer<E>, front: &Front<E>, entry: &E)
    requires front { writer.old.name ≡ front.now }
    requires room { length writer.old.list < LONGEST_CHAIN }
    requires named { N.entry ≡ Some entry.now }
    ensures { writer.new
        ≡ holder writer.old.name writer.old.start (writer.old.list ++ entry.now ∷ []) }
{
    front
        .table
        .shared
        .fetch_add::<Append<N>>(&mut writer.seat, 0, 1);
}
