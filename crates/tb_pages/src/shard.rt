ghost use Rattle.std.specs.Prelude.{◌≡◌, IfErr, IfOk, OnErr, OnOk};
ghost use Rattle.std.specs.List.Sorted.{IsNonDecreasingBy, IsPermutation};
ghost use Rattle.tb_pages.specs.Books.{AreApart, HoldSame, IsAt, IsBetween, Rise, Sets, held_in};

use crate::number::PageNumber;
use std::alloc::Global;
use std::marker::Model;
use tb_base::Memory;

/// What a key book has of a person: the record key and, if the person has a record, its page.
#[derive(Clone, Copy, Debug)]
pub struct Entry {
    pub person: u32,
    pub key: u16,
    pub page: PageNumber,
}

/// Entries that ascend by their persons.
#[derive(Drop)]
pub(crate) struct Shard {
    list: Vec<Entry>,
}

impl Model for Shard {
    ghost use Rattle.std.specs.Prelude.{List};
    ghost use Rattle.std.specs.Coded.{coded_list};
    ghost use Rattle.tb_pages.specs.declared.shard.Entry.{Entry};
    ghost use Rattle.tb_pages.specs.Books.{Rise, entry_code};

    ghost Value = { List Entry };

    ghost coded = { coded_list entry_code };

    ghost view = { λ s. s.list.items };

    ghost invariant = { λ s. Rise s.list.items };
}

// The place of a person's entry, or the place where it would stand. Most persons that are new come
// last.
fn search(entries: &Vec<Entry>, person: u32) -> Result<usize, usize>
    requires { Rise entries.now.items }
    ensures at { IfOk result (λ i. IsAt entries.now.items person i) }
    ensures between { IfErr result (λ i. IsBetween entries.now.items person i) }
{
    if let Some(last) = entries.last() {
        if last.person < person {
            return Err(entries.len());
        }
    }
    match entries.binary_search_by_key(&person, |e| e.person) {
        Ok(i) => Ok(i),
        Err(i) => Err(i),
    }
}

// Sorts entries by their persons. It looks through those that ascend once.
fn sort(list: &mut Vec<Entry>)
    ensures same { IsPermutation list.old.items list.new.items }
    ensures up { IsNonDecreasingBy (λ e. e.person) list.new.items }
{
    list.sort_unstable_by_key(|e| e.person);
}

impl Shard {
    /// These entries, sorted by their persons. It takes no memory.
    pub(crate) fn of(list: Vec<Entry>) -> Shard
        requires { AreApart list.items }
        ensures { HoldSame list.items result }
    {
        let mut list = list;
        sort(&mut list);
        Shard { list }
    }

    /// An equal shard, with room for one more entry.
    pub(crate) fn copy(&self, alloc: Global) -> Result<Shard, Memory>
        ensures { IfOk result (λ shard. shard ≡ self.now) }
    {
        let mut list = Vec::with_capacity(alloc, self.list.len() + 1)?;
        list.extend_from_slice(&self.list)?;
        Ok(Shard { list })
    }

    /// What there is of a person.
    pub(crate) fn get(&self, person: u32) -> Option<Entry>
        ensures { result ≡ held_in self.now person }
    {
        match search(&self.list, person) {
            Ok(i) => Some(self.list[i]),
            Err(_) => None,
        }
    }

    /// Puts an entry in the place of its person's, or adds it.
    pub(crate) fn set(&mut self, entry: Entry) -> Result<(), Memory>
        ensures ok { OnOk result (Sets self.old self.new entry) }
        ensures err { OnErr result (self.new ≡ self.old) }
    {
        match search(&self.list, entry.person) {
            Ok(i) => {
                self.list[i] = entry;
                Ok(())
            }
            Err(i) => {
                self.list.insert(i, entry)?;
                Ok(())
            }
        }
    }
}
