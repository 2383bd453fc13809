ghost use Rattle.std.specs.Prelude.{◌≡◌, ◌<◌, ◌≤◌, ◌++◌, ◌∷◌, [], true, IfOk, OnOk, length};
ghost use Rattle.std.specs.Prelude.{position, remove, slice_get, slice_set, Some};
ghost use Rattle.tb_base.specs.Persons.{has_person};
ghost use Rattle.tb_model.specs.Pages.{page_of};
ghost use Rattle.tb_pages.specs.Pages.{IsPlace, is_of};

use std::alloc::Global;
use std::marker::Model;
use tb_base::{Memory, Piece, Record};
use tb_model::PAGE_ROOM;

/// A page of at most `PAGE_ROOM` records, with its stamp: the number of the release that last
/// changed it.
#[derive(Drop)]
pub(crate) struct Page {
    piece: Piece,
    stamp: u32,
}

impl Model for Page {
    ghost use Rattle.std.specs.Prelude.{◌≤◌, length};
    ghost use Rattle.tb_model.specs.Pages.{PageValue, page_code, page_of};
    ghost use Rattle.tb_model.specs.declared.rooms.TheConstants.{PAGE_ROOM};

    ghost Value = { PageValue };

    ghost coded = { page_code };

    ghost view = { λ p. page_of p.piece p.stamp };

    ghost invariant = { λ p. length p.piece ≤ PAGE_ROOM };
}

impl Page {
    /// A page of these records, with stamp 0. It takes memory for their columns.
    pub(crate) fn of(alloc: Global, records: Vec<Record>) -> Result<Page, Memory>
        requires { length records.items ≤ PAGE_ROOM }
        ensures { IfOk result (λ page. page ≡ page_of records.items 0) }
    {
        let piece = Piece::of(alloc, records)?;
        Ok(Page { piece, stamp: 0 })
    }

    /// A page of one record, with room for `PAGE_ROOM`.
    pub(crate) fn of_one(alloc: Global, stamp: u32, one: Record) -> Result<Page, Memory>
        ensures { IfOk result (λ page. page ≡ page_of (one ∷ []) stamp) }
    {
        let piece = Piece::of_one(alloc, one, PAGE_ROOM)?;
        Ok(Page { piece, stamp })
    }

    /// An equal page, with room for `PAGE_ROOM` records.
    pub(crate) fn copy(&self, alloc: Global) -> Result<Page, Memory>
        ensures { IfOk result (λ page. page ≡ self.now) }
    {
        let piece = self.piece.copy(alloc, PAGE_ROOM)?;
        let stamp = self.stamp;
        Ok(Page { piece, stamp })
    }

    /// How many records there are.
    pub(crate) fn len(&self) -> usize
        ensures { result ≡ length self.now.records }
    {
        self.piece.len()
    }

    /// The number of the release that last changed it.
    pub(crate) fn stamp(&self) -> u32
        ensures { result ≡ self.now.stamp }
    {
        self.stamp
    }

    /// The records, in order.
    pub(crate) fn records(&self) -> &[Record]
        ensures { result.now ≡ self.now.records }
    {
        self.piece.records()
    }

    /// The records with their columns.
    pub(crate) fn piece(&self) -> &Piece
        ensures { result.now ≡ self.now.records }
    {
        &self.piece
    }

    /// The place of the record of a person who has one.
    pub(crate) fn find(&self, person: u32) -> usize
        requires { has_person self.now.records person ≡ true }
        ensures { IsPlace self.now.records person result }
    {
        place_in(self.piece.records(), person)
    }

    /// Gives it another stamp.
    pub(crate) fn restamp(&mut self, stamp: u32)
        ensures { self.new ≡ page_of self.old.records stamp }
    {
        self.stamp = stamp;
    }

    /// Puts a record last.
    pub(crate) fn push(&mut self, one: Record) -> Result<(), Memory>
        requires { length self.old.records < PAGE_ROOM }
        ensures { OnOk result (self.new ≡ page_of (self.old.records ++ one ∷ []) self.old.stamp) }
    {
        self.piece.push(one)?;
        Ok(())
    }

    /// Takes a record out, and closes up.
    pub(crate) fn take_out(&mut self, place: usize) -> Record
        requires { place < length self.old.records }
        ensures taken { slice_get self.old.records place ≡ Some result }
        ensures new { self.new ≡ page_of (remove self.old.records place) self.old.stamp }
    {
        self.piece.take_out(place)
    }

    /// Puts another record in the place of one, which is returned.
    pub(crate) fn replace(&mut self, place: usize, new: Record) -> Record
        requires { place < length self.old.records }
        ensures taken { slice_get self.old.records place ≡ Some result }
        ensures new { self.new ≡ page_of (slice_set self.old.records place new) self.old.stamp }
    {
        self.piece.replace(place, new)
    }
}

// The place of the record of a person who has one. Most pages ascend by their persons, and there it
// is found by halves; else all are looked through.
fn place_in(records: &[Record], person: u32) -> usize
    requires { has_person records.now person ≡ true }
    ensures { IsPlace records.now person result }
{
    match records.binary_search_by_key(&person, |r| r.person) {
        Ok(place) => place,
        Err(_) => first_place(records, person).unwrap(),
    }
}

// The first place of a person's record.
fn first_place(records: &[Record], person: u32) -> Option<usize>
    ensures { result ≡ position (is_of person) records.now }
{
    records.iter().position(|r| person == r.person)
}
