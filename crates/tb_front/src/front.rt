ghost use Rattle.std.specs.Prelude.{◌≡◌, [], IfOk};
ghost use Rattle.tb_front.specs.Holders.{holder};

use crate::keeper::Keeper;
use crate::steps::SplitKeeper;
use crate::view::{OneChain, View};
use crate::writer::Writer;
use atomic_table::{Seat, Table};
use std::alloc::Global;
use std::marker::Model;
use tb_base::Memory;

/// The most entries that a chain may have.
pub const LONGEST_CHAIN: u64 = 10_000;

/// An entry of a chain. Contracts see its plain data and that of the chain's base.
pub trait Entry {
    /// The base of a chain.
    type Start;

    // Some base, for what is left of a seat that was joined into another.
    ghost blank: { Self.Start };
}

// A seat of a front. It has no bytes.
pub(crate) type FrontSeat<E> = Seat<(), View<E, <E as Entry>::Start>>;

/// The front of one chain. A word has the number of the chain's entries; all else that is known of
/// the chain, its holders know. It may be shared among threads. Contracts see its name, which no
/// other front has: a holder belongs to the front of its name.
#[derive(Drop)]
pub struct Front<E: Entry> {
    pub(crate) table: Table<(), View<E, E::Start>, E::Start, OneChain, Global>,
}

impl<E: Entry> Model for Front<E> {
    ghost use Rattle.std.specs.Prelude.{◌≡◌};
    ghost use Rattle.atomic_table.specs.Seated.{TableId, table_id_coded};

    ghost Value = { TableId };

    ghost coded = { table_id_coded };

    ghost view = { λ f. f.table.shared.table_id };

    ghost invariant = { λ f. f.table.shared.table_id.words ≡ 1 };
}

impl<E: Entry> Front<E> {
    /// A front whose chain is empty, with its one writer and its one keeper. The start is the base
    /// of the chain. It takes memory for a word; no other call on a front takes any.
    pub fn new(alloc: Global, start: &E::Start) -> Result<(Front<E>, Writer<E>, Keeper<E>), Memory>
        ensures writer { IfOk result (λ made. made.1 ≡ holder made.0 start.now []) }
        ensures keeper { IfOk result (λ made. made.2 ≡ holder made.0 start.now []) }
    {
        let (table, mut seat) = Table::of_words(alloc, &[0], start)?;
        let keeper = table.shared.split_seat::<SplitKeeper>(&mut seat);
        Ok((Front { table }, Writer { seat }, Keeper { seat: keeper }))
    }
}
