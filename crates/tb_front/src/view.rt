// What each seat of a front knows, and the rule of all of them.

use atomic_table::TableRule;
use std::collections::LinkedList;

/// What a seat is for.
pub enum Role {
    /// The writer, while no keeper was split off it.
    Opener,
    Writer,
    Keeper,
    Draft,
    /// A pass or a note.
    Pass,
    /// None any more: it was joined into another.
    Spent,
}

/// What a seat knows: the base, the entries that it has seen, and after a join the bases and the
/// lists of the two views that were joined. No value of it is made.
pub struct View<E, S> {
    pub role: Role,
    pub base: S,
    pub list: LinkedList<E>,
    pub sources: LinkedList<(S, LinkedList<E>)>,
}

/// The rule: there is one chain, and each seat knows a beginning of it.
pub struct OneChain;

impl<E, S> TableRule<(), View<E, S>, S> for OneChain {
    ghost use Rattle.tb_front.specs.Chain.{OneChain, opener};

    ghost holds = { λ key s. OneChain key s };

    ghost first = { opener };
}
