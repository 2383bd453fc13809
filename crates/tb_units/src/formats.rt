// How the two files are read, record by record.

ghost use Rattle.std.specs.Prelude.{◌≡◌, ◌≢◌, ◌+◌, ◌<◌, ◌≤◌, Ok, Err, [], length, IfErr, OnOk, MatchResult};
ghost use Rattle.tb_base.specs.declared.people.TheConstants.{MOST_PERSONS};
ghost use Rattle.tb_model.specs.Units.{PairValue};
ghost use Rattle.tb_units.specs.Dwellings.{dwelling_in, dwellings_file};
ghost use Rattle.tb_units.specs.Links.{link_in, links_file};
ghost use Rattle.tb_rows.specs.Formats.{at_record, step_of};

use crate::fault::{UnitsKind, fault_at};
use crate::pairs::Pairs;
use std::alloc::Global;
use tb_base::{Keys, Memory};
use tb_records::{read_key, read_person};
use tb_rows::{Fault, Fields, FileFormat};

/// The file of dwellings, so many at most, under a key range.
#[derive(Drop)]
pub struct DwellingsFile {
    pub most: usize,
    pub keys: Keys,
    ghost few: { most ≤ MOST_PERSONS },
}

/// The file of links, so many at most, over dwellings.
#[derive(Drop)]
pub struct LinksFile<'a> {
    pub most: usize,
    pub dwellings: &'a Pairs,
    ghost few: { most ≤ MOST_PERSONS },
}

impl DwellingsFile {
    // How many dwellings there may be at most.
    fn limit(&self) -> usize
        ensures value { result ≡ self.now.most }
        ensures few { result ≤ MOST_PERSONS }
    {
        self.most
    }
}

impl<'a> LinksFile<'a> {
    // How many links there may be at most.
    fn limit(&self) -> usize
        ensures value { result ≡ self.now.most }
        ensures few { result ≤ MOST_PERSONS }
    {
        self.most
    }
}

// The dwelling that a record says, or the fault that the record has by itself.
fn read_dwelling(keys: Keys, fields: &Fields<'_>) -> Result<(u32, u32), UnitsKind>
    requires { length fields.now ≡ 2 }
    ensures { result ≡ dwelling_in keys fields.now }
{
    let Some(number) = read_person(fields.at(0)) else {
        return Err(UnitsKind::BadDwelling);
    };
    let Some(key) = read_key(keys, fields.at(1)) else {
        return Err(UnitsKind::BadKey);
    };
    Ok((number, u32::from(key)))
}

// The link that a record says, or the fault that the record has by itself.
fn read_link(fields: &Fields<'_>) -> Result<(u32, u32), UnitsKind>
    requires { length fields.now ≡ 2 }
    ensures { result ≡ link_in fields.now }
{
    let Some(person) = read_person(fields.at(0)) else {
        return Err(UnitsKind::BadPerson);
    };
    let Some(number) = read_person(fields.at(1)) else {
        return Err(UnitsKind::BadDwelling);
    };
    Ok((person, number))
}

// For how many records a file of so many bytes needs room at most: a record has a byte at least for
// each column, and one after it.
fn room_for(bytes: usize, most: usize) -> usize {
    (bytes / 4).min(most)
}

impl FileFormat for DwellingsFile {
    type SoFar = Pairs;

    type Value = Pairs;

    type Kind = UnitsKind;

    ghost Line = { PairValue };

    ghost format = { λ f. dwellings_file f.most f.keys };

    ghost count = { λ dwellings. length dwellings };

    fn columns(&self) -> usize {
        2
    }

    fn column(&self, i: usize) -> &[u8] {
        match i {
            0 => b"dwelling",
            _ => b"dwelling_key",
        }
    }

    fn bad_header(&self) -> UnitsKind {
        UnitsKind::BadHeader
    }

    fn bad_csv(&self) -> UnitsKind {
        UnitsKind::BadCsv
    }

    fn start(&self, alloc: Global, bytes: usize) -> Result<Pairs, Memory> {
        Ok(Pairs::with_room(alloc, room_for(bytes, self.limit())))
    }

    fn step(
        &self,
        so_far: &mut Pairs,
        at: u32,
        fields: &Fields<'_>,
    ) -> Result<(), Fault<UnitsKind>> {
        let (number, key) = match read_dwelling(self.keys, fields) {
            Ok(one) => one,
            Err(kind) => return Err(fault_at(kind, at)),
        };
        if so_far.has(number) {
            return Err(fault_at(UnitsKind::DwellingTwice, at));
        }
        if so_far.len() >= self.limit() {
            return Err(fault_at(UnitsKind::TooMany, at));
        }
        so_far.add(number, key)?;
        Ok(())
    }

    fn finish(&self, so_far: Pairs) -> Result<Pairs, Fault<UnitsKind>> {
        Ok(so_far)
    }
}

impl<'a> FileFormat for LinksFile<'a> {
    type SoFar = Pairs;

    type Value = Pairs;

    type Kind = UnitsKind;

    ghost Line = { PairValue };

    ghost format = { λ f. links_file f.most f.dwellings.now };

    ghost count = { λ links. length links };

    fn columns(&self) -> usize {
        2
    }

    fn column(&self, i: usize) -> &[u8] {
        match i {
            0 => b"person",
            _ => b"dwelling",
        }
    }

    fn bad_header(&self) -> UnitsKind {
        UnitsKind::BadHeader
    }

    fn bad_csv(&self) -> UnitsKind {
        UnitsKind::BadCsv
    }

    fn start(&self, alloc: Global, bytes: usize) -> Result<Pairs, Memory> {
        Ok(Pairs::with_room(alloc, room_for(bytes, self.limit())))
    }

    fn step(
        &self,
        so_far: &mut Pairs,
        at: u32,
        fields: &Fields<'_>,
    ) -> Result<(), Fault<UnitsKind>> {
        let (person, number) = match read_link(fields) {
            Ok(one) => one,
            Err(kind) => return Err(fault_at(kind, at)),
        };
        if !self.dwellings.has(number) {
            return Err(fault_at(UnitsKind::UnknownDwelling, at));
        }
        if so_far.has(person) {
            return Err(fault_at(UnitsKind::PersonTwice, at));
        }
        if so_far.len() >= self.limit() {
            return Err(fault_at(UnitsKind::TooMany, at));
        }
        so_far.add(person, number)?;
        Ok(())
    }

    fn finish(&self, so_far: Pairs) -> Result<Pairs, Fault<UnitsKind>> {
        Ok(so_far)
    }
}
