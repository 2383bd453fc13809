// The kinds of step. Each keeps the rule, and none shows what another seat knows but a load after a
// join.

ghost use Rattle.std.specs.Prelude.{Option, None};
ghost use Rattle.tb_front.specs.declared.view.Role.TheVariants.{Writer, Keeper, Draft, Pass};
ghost use Rattle.tb_front.specs.Chain.{spent};
ghost use Rattle.tb_front.specs.Steps.{confirmed, in_role, lengthened, IsAppended, IsLoaded};

use crate::front::Entry;
use crate::view::View;
use atomic_table::{Join, Play, Split};
use std::marker::{Brand, PhantomData};

/// The keeper is split off the opener, which is the writer from then on.
pub struct SplitKeeper;

impl<E, S> Split<View<E, S>> for SplitKeeper {
    ghost left = { in_role Writer };

    ghost right = { in_role Keeper };
}

/// A draft is split off the writer.
pub struct SplitDraft;

impl<E, S> Split<View<E, S>> for SplitDraft {
    ghost left = { λ v. v };

    ghost right = { in_role Draft };
}

/// A pass or a note is split off the keeper or a pass.
pub struct SplitNote;

impl<E, S> Split<View<E, S>> for SplitNote {
    ghost left = { λ v. v };

    ghost right = { in_role Pass };
}

/// A draft is joined into the keeper, or a note into a pass: the list becomes the longer of both.
pub struct TakeIn;

impl<E: Entry> Join<View<E, E::Start>> for TakeIn {
    ghost both = { lengthened };

    ghost spent = { spent E.blank };
}

/// A note is joined into the writer or the keeper, whose list stays.
pub struct Confirm;

impl<E: Entry> Join<View<E, E::Start>> for Confirm {
    ghost both = { confirmed };

    ghost spent = { spent E.blank };
}

/// Names the entry that a step appends. The call picks it.
pub trait OneEntry<E> {
    ghost entry: { Option E };
}

impl<E> OneEntry<E> for Brand {
    ghost entry = { None };
}

/// The writer appends the entry that `N` names.
pub struct Append<N> {
    named: PhantomData<N>,
}

impl<E, S, N: OneEntry<E>> Play<(), View<E, S>> for Append<N> {
    ghost then = { IsAppended N.entry };
}

/// The word is loaded. What a join left in the view is told.
pub struct Load;

impl<T, E, S> Play<T, View<E, S>> for Load {
    ghost then = { IsLoaded };
}
