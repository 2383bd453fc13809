// The recodes of a classification, read from their file.
//
// Whether a recode's variable and code are known depends on its own record alone. Still both are
// tested beside the earlier records, since the order of faults puts NameTwice between them, and
// BadCode after CodeTwice.

ghost use Rattle.std.specs.Prelude.{◌≡◌, ◌≢◌, ◌<◌, ◌≤◌, ◌+◌, ◌∷◌, ◌++◌, [], Ok, Err, Some, None};
ghost use Rattle.std.specs.Prelude.{true, false, is_some, length, IfErr, IfOk, MatchResult, OnOk};
ghost use Rattle.std.specs.Prelude.{find, get_or, option_map};
ghost use Rattle.indexmap.specs.IndexMap.{get_by_text};
ghost use Rattle.tb_rows.specs.Formats.{at_record, step_of};
ghost use Rattle.tb_schema.specs.Faults.{IsFaultOf};
ghost use Rattle.tb_schema.specs.Partial.{ArePartial, record_count};
ghost use Rattle.tb_schema.specs.Recodes.{RecodeLine, and_recode, at_recode, is_partial};
ghost use Rattle.tb_schema.specs.Recodes.{recode_line, recode_line_of, recodes_file};
ghost use Rattle.tb_schema.specs.Views.{partial_views, so_far_view};

use crate::fault::{SchemaKind, fault_at};
use crate::limits::MOST_RECODES;
use crate::lookup::find_key;
use crate::recode::{Grouping, Recode};
use crate::schema::Schema;
use crate::spelling::as_name;
use indexmap::IndexMap;
use std::alloc::Global;
use std::marker::Model;
use tb_base::Memory;
use tb_model::NameOf;
use tb_rows::{Fault, Fields, FileFormat};

/// The fields of a record.
#[derive(Clone, Copy)]
pub struct RecodeTexts<'a> {
    pub name: &'a str,
    pub variable: &'a [u8],
    pub code: &'a [u8],
    pub group: &'a [u8],
}

// Adds a line to the recode of a number.
fn extend(
    alloc: Global,
    schema: &Schema,
    recodes: &mut IndexMap<String, Recode>,
    i: usize,
    variable: u16,
    line: &RecodeTexts<'_>,
    at: u32,
) -> Result<(), Fault<SchemaKind>>
    requires known { ArePartial (so_far_view schema.now.variables recodes.old) }
    requires there { i < length recodes.old.entries }
    requires variable { variable < length schema.now.variables }
    ensures ok { let old = so_far_view schema.now.variables recodes.old in OnOk result
        (at_recode old at (recode_line_of line.now) variable (Some i)
        ≡ Ok (partial_views recodes.new)) }
    ensures refused { let old = so_far_view schema.now.variables recodes.old in IfErr result
        (IsFaultOf at (at_recode old at (recode_line_of line.now) variable (Some i))) }
{
    let code = schema.code_of(NameOf::Variable(variable), line.code);
    let Some(recode) = recodes.get_index_mut(i) else {
        unreachable!()
    };
    if recode.variable != variable {
        return Err(fault_at(SchemaKind::NameTwice, at));
    }
    recode.grouping.put(alloc, code, line.group, at)
}

// Adds a recode whose name is new.
fn push_recode(
    alloc: Global,
    recodes: &mut IndexMap<String, Recode>,
    name: &str,
    recode: Recode,
) -> Result<(), Memory>
    requires { is_some (get_by_text recodes.old name.now) ≡ false }
    ensures { OnOk result (partial_views recodes.new ≡ partial_views recodes.old ++ record {
      name = name.now;
      variable = recode.variable;
      grouping = recode.grouping;
      first = recode.first;
    } ∷ []) }
{
    let name = String::from_str(alloc, name)?;
    recodes.insert(name, recode)?;
    Ok(())
}

// Adds a line of a new recode.
fn begin(
    alloc: Global,
    schema: &Schema,
    recodes: &mut IndexMap<String, Recode>,
    variable: u16,
    line: &RecodeTexts<'_>,
    at: u32,
) -> Result<(), Fault<SchemaKind>>
    requires variable { variable < length schema.now.variables }
    requires fresh { is_some (get_by_text recodes.old line.now.name.now) ≡ false }
    ensures ok { let old = so_far_view schema.now.variables recodes.old in OnOk result
        (at_recode old at (recode_line_of line.now) variable None
        ≡ Ok (partial_views recodes.new)) }
    ensures refused { let old = so_far_view schema.now.variables recodes.old in IfErr result
        (IsFaultOf at (at_recode old at (recode_line_of line.now) variable None)) }
{
    let of = NameOf::Variable(variable);
    let code = schema.code_of(of, line.code);
    let mut grouping = Grouping::new(alloc, schema.categories(of) as usize)?;
    grouping.put(alloc, code, line.group, at)?;
    if recodes.len() >= MOST_RECODES {
        return Err(fault_at(SchemaKind::TooMany, at));
    }
    let recode = Recode {
        variable,
        grouping,
        first: at,
    };
    Ok(push_recode(alloc, recodes, line.name, recode)?)
}

// Adds one more line.
fn add(
    alloc: Global,
    schema: &Schema,
    recodes: &mut IndexMap<String, Recode>,
    line: &RecodeTexts<'_>,
    at: u32,
) -> Result<(), Fault<SchemaKind>>
    requires known { ArePartial (so_far_view schema.now.variables recodes.old) }
    ensures ok { let old = so_far_view schema.now.variables recodes.old in OnOk result
        (and_recode at old (recode_line_of line.now)
        ≡ Ok (so_far_view schema.now.variables recodes.new)) }
    ensures refused { let old = so_far_view schema.now.variables recodes.old in IfErr result
        (IsFaultOf at (and_recode at old (recode_line_of line.now))) }
{
    let Some(variable) = schema.find_variable(line.variable) else {
        return Err(fault_at(SchemaKind::UnknownVariable, at));
    };
    match find_key(recodes, line.name.as_bytes()) {
        Some(i) => extend(alloc, schema, recodes, i, variable, line, at),
        None => {
            if schema.find_variable(line.name.as_bytes()).is_some() {
                return Err(fault_at(SchemaKind::NameTwice, at));
            }
            begin(alloc, schema, recodes, variable, line, at)
        }
    }
}

// What a record says, or the fault that it has by itself.
fn read_line<'a>(fields: &'a Fields<'_>) -> Result<RecodeTexts<'a>, SchemaKind>
    requires { length fields.now ≡ 4 }
    ensures { MatchResult result (λ t. recode_line fields.now ≡ Ok (recode_line_of t))
        (λ k. recode_line fields.now ≡ Err k) }
{
    let Some(name) = as_name(fields.at(0)) else {
        return Err(SchemaKind::BadName);
    };
    Ok(RecodeTexts {
        name,
        variable: fields.at(1),
        code: fields.at(2),
        group: fields.at(3),
    })
}

// The number of the first record of the first recode that lacks a code of its variable.
fn first_partial(recodes: &IndexMap<String, Recode>) -> Option<u32>
    ensures { result ≡ option_map (λ r. r.first) (find is_partial (partial_views recodes.now)) }
{
    match recodes.values().find(|recode| recode.grouping.is_partial()) {
        Some(recode) => Some(recode.first),
        None => None,
    }
}

/// The recodes of the records so far.
#[derive(Drop)]
pub struct PartialRecodes<'a> {
    schema: &'a Schema,
    recodes: IndexMap<String, Recode>,
}

impl<'a> Model for PartialRecodes<'a> {
    ghost use Rattle.tb_schema.specs.Recodes.{PartialValue};
    ghost use Rattle.tb_schema.specs.Views.{so_far_view};

    ghost Value = { PartialValue };

    ghost view = { λ p. so_far_view p.schema.now.variables p.recodes };
}

/// The recodes of a whole file.
#[derive(Drop)]
pub struct WholeRecodes {
    pub recodes: IndexMap<String, Recode>,
}

impl Model for WholeRecodes {
    ghost use Rattle.std.specs.Prelude.{List, map as map_list};
    ghost use Rattle.tb_model.specs.Schemas.{RecodeValue};
    ghost use Rattle.tb_schema.specs.Views.{recode_view};

    ghost Value = { List RecodeValue };

    ghost view = { λ w. map_list recode_view w.recodes.entries };
}

/// How recodes over a classification are read.
#[derive(Drop)]
pub struct RecodesFile<'a> {
    pub alloc: Global,
    pub schema: &'a Schema,
}

impl<'a> FileFormat for RecodesFile<'a> {
    type SoFar = PartialRecodes<'a>;

    type Value = WholeRecodes;

    type Kind = SchemaKind;

    ghost Line = { RecodeLine };

    ghost format = { λ f. recodes_file f.schema.now };

    ghost count = { record_count };

    ghost Known = { ArePartial };

    fn columns(&self) -> usize {
        4
    }

    fn column(&self, i: usize) -> &[u8] {
        match i {
            0 => b"recode",
            1 => b"variable",
            2 => b"code",
            _ => b"group",
        }
    }

    fn bad_header(&self) -> SchemaKind {
        SchemaKind::BadHeader
    }

    fn bad_csv(&self) -> SchemaKind {
        SchemaKind::BadCsv
    }

    fn start(&self, alloc: Global, _bytes: usize) -> Result<PartialRecodes<'a>, Memory> {
        self.schema.soundness();
        Ok(PartialRecodes {
            schema: self.schema,
            recodes: IndexMap::new(alloc),
        })
    }

    fn step(
        &self,
        so_far: &mut PartialRecodes<'a>,
        at: u32,
        fields: &Fields<'_>,
    ) -> Result<(), Fault<SchemaKind>> {
        match read_line(fields) {
            Ok(line) => add(self.alloc, so_far.schema, &mut so_far.recodes, &line, at),
            Err(kind) => Err(fault_at(kind, at)),
        }
    }

    fn finish(&self, so_far: PartialRecodes<'a>) -> Result<WholeRecodes, Fault<SchemaKind>> {
        match first_partial(&so_far.recodes) {
            Some(at) => Err(fault_at(SchemaKind::CodeMissing, at)),
            None => Ok(WholeRecodes {
                recodes: so_far.recodes,
            }),
        }
    }
}
