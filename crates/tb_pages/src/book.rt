ghost use Rattle.std.specs.Prelude.{◌≡◌, IfOk, OnErr, OnOk, map};
ghost use Rattle.std.specs.FinMap.{get, insert};
ghost use Rattle.std.specs.Arc.{arc_value};
ghost use Rattle.tb_pages.specs.Books.{AreShards, Sets, book_of};

use crate::shard::{Entry, Shard};
use std::alloc::Global;
use std::marker::Model;
use std::sync::Arc;
use tb_base::Memory;

/// How many shards a key book has.
pub const SHARDS: usize = 4_096;

/// A key book: of each person who ever had a record the key and, while there is one, its page. It
/// is cut into `SHARDS` shards by the person modulo `SHARDS`, which other key books may share.
#[derive(Drop)]
pub struct Book {
    shards: Vec<Arc<Shard>>,
}

impl Model for Book {
    ghost use Rattle.std.specs.Prelude.{map};
    ghost use Rattle.std.specs.Arc.{arc_value};
    ghost use Rattle.tb_pages.specs.Books.{Book, book_code, book_of, AreShards};

    ghost Value = { Book };

    ghost coded = { book_code };

    ghost view = { λ b. book_of (map arc_value b.shards.items) };

    ghost invariant = { λ b. AreShards (map arc_value b.shards.items) };
}

// Makes a shard one's own: where it is shared, a copy takes its place.
fn own(alloc: Global, shard: &mut Arc<Shard>) -> Result<(), Memory>
    ensures { arc_value shard.new ≡ arc_value shard.old }
{
    if Arc::strong_count(shard) != 1 {
        let copy = shard.copy(alloc)?;
        *shard = Arc::new(alloc, copy)?;
    }
    Ok(())
}

fn set_in(alloc: Global, shard: &mut Arc<Shard>, entry: Entry) -> Result<(), Memory>
    ensures ok { OnOk result (Sets (arc_value shard.old) (arc_value shard.new) entry) }
    ensures err { OnErr result (arc_value shard.new ≡ arc_value shard.old) }
{
    own(alloc, shard)?;
    match Arc::get_mut(shard) {
        Some(mine) => mine.set(entry),
        None => Err(Memory),
    }
}

impl Book {
    // The key book of these shards.
    pub(crate) fn of(shards: Vec<Arc<Shard>>) -> Book
        requires { AreShards (map arc_value shards.items) }
        ensures { result ≡ book_of (map arc_value shards.items) }
    {
        Book { shards }
    }

    /// The same key book, shared.
    pub fn share(&self, alloc: Global) -> Result<Book, Memory>
        ensures { IfOk result (λ book. book ≡ self.now) }
    {
        let mut shards = Vec::with_capacity(alloc, SHARDS)?;
        for shard in &self.shards {
            shards.push(Arc::try_clone(shard)?)?;
        }
        Ok(Book { shards })
    }

    /// What there is of a person.
    pub fn get(&self, person: u32) -> Option<Entry>
        ensures { result ≡ get self.now person }
    {
        self.shards[person as usize % SHARDS].get(person)
    }

    /// Puts a person's entry in the place of the one that there was, or adds it.
    pub fn set(&mut self, alloc: Global, entry: Entry) -> Result<(), Memory>
        ensures ok { OnOk result (self.new ≡ insert self.old entry.person entry) }
        ensures err { OnErr result (self.new ≡ self.old) }
    {
        set_in(
            alloc,
            &mut self.shards[entry.person as usize % SHARDS],
            entry,
        )
    }
}
