ghost use Rattle.std.specs.Prelude.{◌≡◌, ◌<◌, ◌++◌, ◌∷◌, [], All, Some, IfOk, OnErr, OnOk};
ghost use Rattle.std.specs.Prelude.{length, remove, slice_get, slice_set};
ghost use Rattle.std.specs.Option.{ForSome};
ghost use Rattle.std.specs.Vec.{vec_capacity, vec_len};
ghost use Rattle.tb_base.specs.Pieces.{code_column, key_column, AreChanged};

use crate::columns::{
    columns_of, copy_columns, copy_of, keys_of, push_all, remove_all, replace_all, reserve_all,
};
use crate::memory::Memory;
use crate::records::Record;
use std::alloc::Global;
use std::marker::Model;
use std::mem;

/// Records in order, which are also kept by column: their keys, and their categories of each
/// variable that the first of them had when the piece was made. A category that a record lacks is
/// 0 there.
#[derive(Drop)]
pub struct Piece {
    records: Vec<Record>,
    keys: Vec<u16>,
    columns: Vec<Vec<u16>>,
}

impl Model for Piece {
    ghost use Rattle.std.specs.Prelude.{List};
    ghost use Rattle.std.specs.Coded.{coded_list};
    ghost use Rattle.tb_base.specs.declared.records.Record.{Record};
    ghost use Rattle.tb_base.specs.Records.{record_code};
    ghost use Rattle.tb_base.specs.Pieces.{AreBeside};

    ghost Value = { List Record };

    ghost coded = { coded_list record_code };

    ghost view = { λ p. p.records.items };

    ghost invariant = { λ p. AreBeside p.keys.items p.columns.items p.records.items };
}

// How many variables the first of these records has.
fn width_of(records: &[Record]) -> usize {
    match records.first() {
        Some(one) => one.codes.len(),
        None => 0,
    }
}

// Copies of records, with room for so many.
fn copies_of(alloc: Global, records: &[Record], room: usize) -> Result<Vec<Record>, Memory>
    ensures { IfOk result (λ copies. copies.items ≡ records.now) }
{
    let mut copies = Vec::with_capacity(alloc, room)?;
    for one in records {
        copies.push(one.copy()?)?;
    }
    Ok(copies)
}

// Takes the memory for one more record in each list.
fn reserve_one(
    records: &mut Vec<Record>,
    keys: &mut Vec<u16>,
    columns: &mut [Vec<u16>],
) -> Result<(), Memory>
    ensures records { records.new.items ≡ records.old.items }
    ensures keys { keys.new.items ≡ keys.old.items }
    ensures columns { AreChanged (λ v codes. codes) columns.old columns.new }
    ensures for_record { OnOk result (vec_len records.new < vec_capacity records.new) }
    ensures for_key { OnOk result (vec_len keys.new < vec_capacity keys.new) }
    ensures for_codes { OnOk result (All (λ c. vec_len c < vec_capacity c) columns.new) }
{
    records.reserve(1)?;
    keys.reserve(1)?;
    reserve_all(columns)
}

impl Piece {
    /// A piece of these records. It takes memory for their columns.
    pub fn of(alloc: Global, records: Vec<Record>) -> Result<Piece, Memory>
        ensures { IfOk result (λ piece. piece ≡ records.items) }
    {
        let room = records.capacity();
        let keys = keys_of(alloc, &records, room)?;
        let columns = columns_of(alloc, &records, width_of(&records), room)?;
        Ok(Piece {
            records,
            keys,
            columns,
        })
    }

    /// A piece of one record, with room for so many.
    pub fn of_one(alloc: Global, one: Record, room: usize) -> Result<Piece, Memory>
        ensures { IfOk result (λ piece. piece ≡ one ∷ []) }
    {
        let mut records = Vec::with_capacity(alloc, room)?;
        records.push(one)?;
        Piece::of(alloc, records)
    }

    /// An equal piece, with room for so many records.
    pub fn copy(&self, alloc: Global, room: usize) -> Result<Piece, Memory>
        ensures { IfOk result (λ piece. piece ≡ self.now) }
    {
        let records = copies_of(alloc, &self.records, room)?;
        let keys = copy_of(alloc, &self.keys, room)?;
        let columns = copy_columns(alloc, &self.columns, room)?;
        Ok(Piece {
            records,
            keys,
            columns,
        })
    }

    /// How many records there are.
    pub fn len(&self) -> usize
        ensures { result ≡ length self.now }
    {
        self.records.len()
    }

    /// The records, in order.
    pub fn records(&self) -> &[Record]
        ensures { result.now ≡ self.now }
    {
        self.records.as_slice()
    }

    /// The keys of the records, in order.
    #[inline]
    pub fn keys(&self) -> &[u16]
        ensures { result.now ≡ key_column self.now }
    {
        self.keys.as_slice()
    }

    /// The categories of the records of one variable, in order, where they are kept by column.
    #[inline]
    pub fn column(&self, v: usize) -> Option<&[u16]>
        ensures { ForSome result (λ codes. codes.now ≡ code_column self.now v) }
    {
        if v < self.columns.len() {
            Some(self.columns[v].as_slice())
        } else {
            None
        }
    }

    /// Puts a record last. Where the call is out of memory, nothing has changed.
    pub fn push(&mut self, one: Record) -> Result<(), Memory>
        ensures ok { OnOk result (self.new ≡ self.old ++ one ∷ []) }
        ensures err { OnErr result (self.new ≡ self.old) }
    {
        reserve_one(&mut self.records, &mut self.keys, &mut self.columns)?;
        push_all(&mut self.columns, &one);
        self.keys.push_reserved(one.key);
        self.records.push_reserved(one);
        Ok(())
    }

    /// Takes a record out, and closes up.
    pub fn take_out(&mut self, place: usize) -> Record
        requires { place < length self.old }
        ensures taken { slice_get self.old place ≡ Some result }
        ensures new { self.new ≡ remove self.old place }
    {
        remove_all(&mut self.columns, place);
        self.keys.remove(place);
        self.records.remove(place)
    }

    /// Puts another record in the place of one, which is returned.
    pub fn replace(&mut self, place: usize, new: Record) -> Record
        requires { place < length self.old }
        ensures taken { slice_get self.old place ≡ Some result }
        ensures new { self.new ≡ slice_set self.old place new }
    {
        replace_all(&mut self.columns, place, &new);
        self.keys[place] = new.key;
        mem::replace(&mut self.records[place], new)
    }
}
