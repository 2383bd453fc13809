// A recode: the groups into which it puts the categories of a variable.

ghost use Rattle.std.specs.Prelude.{◌≡◌, ◌<◌, [], Ok, None, IfErr, IfOk, IfSome, OnOk, is_some};
ghost use Rattle.std.specs.Prelude.{length, map, not, slice_index_or, string_bytes, unwrap_or};
ghost use Rattle.std.specs.List.{list_any};
ghost use Rattle.tb_schema.specs.Faults.{IsFaultOf};
ghost use Rattle.tb_schema.specs.Groupings.{no_groups, with_code, with_group};
ghost use Rattle.tb_schema.specs.Names.{place_in};

use crate::fault::{SchemaKind, fault_at};
use crate::lookup::find_in_set;
use crate::spelling::as_code;
use indexmap::IndexSet;
use std::alloc::Global;
use std::marker::Model;
use tb_base::Memory;
use tb_rows::Fault;

/// The groups of a variable's categories: their codes in the order of first appearance, and the
/// number of the group of each category that is in one.
#[derive(Drop)]
pub struct Grouping {
    groups: IndexSet<String>,
    group_of: Vec<Option<u16>>,
}

impl Model for Grouping {
    ghost use Rattle.std.specs.Prelude.{map, string_bytes};
    ghost use Rattle.tb_schema.specs.Groupings.{GroupingValue};

    ghost Value = { GroupingValue };

    ghost view = { λ g. record {
      groups = map string_bytes g.groups.keys;
      group_of = g.group_of.items;
    } };
}

/// A recode: the number of its variable, its groups, and the number of its first record.
#[derive(Drop)]
pub struct Recode {
    pub variable: u16,
    pub grouping: Grouping,
    pub first: u32,
}

// The number of a group, which is added if it is new.
fn add_group(alloc: Global, groups: &mut IndexSet<String>, group: &str) -> Result<usize, Memory>
    ensures { let codes = map string_bytes groups.old.keys in IfOk result (λ g.
        with_group codes group.now (place_in codes group.now)
        ≡ (map string_bytes groups.new.keys, g)) }
{
    match groups.get_index_of(group) {
        Some(g) => Ok(g),
        None => {
            let group = String::from_str(alloc, group)?;
            let (g, _) = groups.insert_full(group)?;
            Ok(g)
        }
    }
}

impl Grouping {
    /// No groups of so many categories.
    pub fn new(alloc: Global, categories: usize) -> Result<Grouping, Memory>
        ensures { IfOk result (λ grouping. grouping ≡ no_groups categories) }
    {
        Ok(Grouping {
            groups: IndexSet::new(alloc),
            group_of: vec![in alloc; None; categories]?,
        })
    }

    /// Puts a category into a group.
    pub fn put(
        &mut self,
        alloc: Global,
        category: Option<u16>,
        group: &[u8],
        at: u32,
    ) -> Result<(), Fault<SchemaKind>>
        requires there { IfSome category (λ c. c < length self.old.group_of) }
        requires few { length self.old.groups < 65536 }
        ensures ok { OnOk result (with_code self.old group.now category ≡ Ok self.new) }
        ensures refused { IfErr result (IsFaultOf at (with_code self.old group.now category)) }
    {
        let Some(category) = category else {
            return Err(fault_at(SchemaKind::UnknownCode, at));
        };
        let category = category as usize;
        if self.group_of[category].is_some() {
            return Err(fault_at(SchemaKind::CodeTwice, at));
        }
        let Some(group) = as_code(group) else {
            return Err(fault_at(SchemaKind::BadCode, at));
        };
        let number = add_group(alloc, &mut self.groups, group)?;
        self.group_of[category] = Some(number as u16);
        Ok(())
    }

    /// Whether a category is in no group.
    pub fn is_partial(&self) -> bool
        ensures { result ≡ list_any (λ o. not (is_some o)) self.now.group_of }
    {
        self.group_of.iter().any(|group| !group.is_some())
    }

    /// How many groups there are.
    pub fn len(&self) -> usize
        ensures { result ≡ length self.now.groups }
    {
        self.groups.len()
    }

    /// The code of a group.
    pub fn code_at(&self, group: usize) -> &str
        requires { group < length self.now.groups }
        ensures { result.now ≡ slice_index_or self.now.groups group [] }
    {
        match self.groups.get_index(group) {
            Some(code) => code.as_str(),
            None => unreachable!(),
        }
    }

    /// The group of a code, if there is one.
    pub fn find(&self, code: &[u8]) -> Option<usize>
        ensures place { result ≡ place_in self.now.groups code.now }
        ensures within { IfSome result (λ g. g < length self.now.groups) }
    {
        find_in_set(&self.groups, code)
    }

    /// The group of a category that is in one.
    pub fn group_of(&self, category: usize) -> u16
        requires { category < length self.now.group_of }
        ensures { result ≡ unwrap_or (slice_index_or self.now.group_of category None) 0 }
    {
        self.group_of[category].unwrap_or(0)
    }
}
