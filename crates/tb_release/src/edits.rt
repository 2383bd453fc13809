ghost use Rattle.std.specs.Prelude.{◌≡◌, ◌<◌, ◌≤◌, [], Some, IfOk, length, slice_get};
ghost use Rattle.std.specs.Prelude.{slice_index_or};
ghost use Rattle.tb_release.specs.declared.limits.TheConstants.{MOST_EDITS};
ghost use Rattle.tb_release.specs.Results.{Pushes};

use crate::limits::MOST_EDITS;
use std::alloc::Global;
use std::marker::Model;
use tb_base::{Codes, Memory, Record};

/// The settings of an amend, in the order in which they are made: each a variable's number and the
/// number of its new category.
#[derive(Debug, Drop)]
pub struct Sets {
    pairs: Vec<(u16, u16)>,
}

impl Model for Sets {
    ghost use Rattle.std.specs.Prelude.{ℕ, List};

    ghost Value = { List (ℕ × ℕ) };

    ghost view = { λ s. s.pairs.items };
}

impl Sets {
    /// The settings of a list, in its order. It takes memory.
    pub fn of(alloc: Global, list: &[(u16, u16)]) -> Result<Sets, Memory>
        ensures { IfOk result (λ sets. sets ≡ list.now) }
    {
        let pairs = list.to_vec(alloc)?;
        Ok(Sets { pairs })
    }

    /// How many settings there are.
    pub fn len(&self) -> usize
        ensures { result ≡ length self.now }
    {
        self.pairs.len()
    }

    /// The setting at place `i`, from 0.
    pub fn at(&self, i: usize) -> (u16, u16)
        requires { i < length self.now }
        ensures { result ≡ slice_index_or self.now i (0, 0) }
    {
        self.pairs[i]
    }
}

/// What is asked for one person: to add the person's record, to drop it, or to replace categories
/// in it; or of the rules: to set the pvalue at a row and a cell key, to set the threshold, or to
/// take back the releases before one.
#[derive(Debug, Drop)]
pub enum Edit {
    Add { person: u32, key: u16, codes: Codes },
    Drop { person: u32 },
    Amend { person: u32, sets: Sets },
    Pvalue { row: u16, key: u16, pvalue: i16 },
    Threshold { value: u32 },
    Oldest { release: u32 },
}

/// What an edit of a record changed: the person's record before it, if there was one, and after it,
/// if there is one.
#[derive(Debug, Drop)]
pub struct Change {
    pub person: u32,
    pub before: Option<Record>,
    pub after: Option<Record>,
}

// What stands in a batch for an edit: the change of one of a record, and one of the rules itself.
#[derive(Drop)]
pub(crate) enum BatchEntry {
    Record(Change),
    Rule(Edit),
}

/// Why an edit isn't held: there are `MOST_EDITS` already, or the call is out of memory. It has the
/// edit.
#[derive(Debug, Drop)]
pub enum Pushed {
    Full(Edit),
    Memory(Edit),
}

/// Edits that are held, in order, at most `MOST_EDITS`.
#[derive(Drop)]
pub struct Edits {
    list: Vec<Edit>,
}

impl Model for Edits {
    ghost use Rattle.std.specs.Prelude.{List, length, ◌≤◌};
    ghost use Rattle.tb_release.specs.declared.edits.Edit.{Edit};
    ghost use Rattle.tb_release.specs.declared.limits.TheConstants.{MOST_EDITS};

    ghost Value = { List Edit };

    ghost view = { λ e. e.list.items };

    ghost invariant = { λ e. length e.list.items ≤ MOST_EDITS };
}

impl Edits {
    /// No edits. It takes no memory.
    pub fn new(alloc: Global) -> Edits
        ensures { result ≡ [] }
    {
        Edits {
            list: Vec::new(alloc),
        }
    }

    /// How many edits are held.
    pub fn len(&self) -> usize
        ensures len { result ≡ length self.now }
        ensures few { result ≤ MOST_EDITS }
    {
        self.list.len()
    }

    /// The edit at place `i`, from 0.
    pub fn at(&self, i: usize) -> &Edit
        requires { i < length self.now }
        ensures { slice_get self.now i ≡ Some result.now }
    {
        &self.list[i]
    }

    /// Holds no edits any more.
    pub fn clear(&mut self)
        ensures { self.new ≡ [] }
    {
        self.list.clear();
    }

    /// Holds one more edit, as the last. Where `MOST_EDITS` are held already, and where the call is
    /// out of memory, the edit comes back and nothing has changed.
    pub fn push(&mut self, edit: Edit) -> Result<(), Pushed>
        ensures { Pushes self.old edit result self.new }
    {
        if self.list.len() >= MOST_EDITS {
            return Err(Pushed::Full(edit));
        }
        match self.list.push(edit) {
            Ok(()) => Ok(()),
            Err(failed) => Err(Pushed::Memory(failed.value)),
        }
    }

    // All of them.
    pub(crate) fn all(&self) -> &[Edit]
        ensures all { result.now ≡ self.now }
        ensures few { length self.now ≤ MOST_EDITS }
    {
        self.list.as_slice()
    }
}
