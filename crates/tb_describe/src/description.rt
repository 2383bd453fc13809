// The reply to a line whose first word is `describe`.

ghost use Rattle.std.specs.Prelude.{◌≡◌, ◌⊎◌, ◌≤◌, IfErr, IfOk, drop, length, not, position};
ghost use Rattle.tb_base.specs.Bytes.{is_text_byte};
ghost use Rattle.tb_base.specs.Words.{words_of};
ghost use Rattle.tb_describe.specs.Descriptions.{Describes, text_of_name, text_of_words};
ghost use Rattle.tb_describe.specs.Descriptions.{is_description as describes};
ghost use Rattle.tb_describe.specs.Told.{description_text};
ghost use Rattle.tb_io.specs.Taken.{IsWritten};
ghost use Rattle.tb_io.specs.declared.limits.TheConstants.{MOST_LINE_BYTES};
ghost use Rattle.tb_query.specs.declared.fault.QueryFault.TheVariants as faults;
ghost use Rattle.tb_schema.specs.Names.{name_in};
ghost use Rattle.tb_tables.specs.ReplyTexts.{fault_text};

use crate::lists::{list_categories, list_names};
use std::alloc::Global;
use tb_base::{first_word, is_text_byte};
use tb_io::{Sink, Wrote};
use tb_query::QueryFault;
use tb_schema::Schema;
use tb_tables::TableReply;

/// The reply to a line whose first word is `describe`.
#[derive(Drop)]
pub enum Description {
    /// The list for which it asks.
    List(Vec<u8>),
    /// The line's first fault, which may be that memory was refused.
    Refused(QueryFault),
}

impl Description {
    /// Writes the reply's text, in one write. It takes no memory.
    pub fn write<O: Sink>(self, out: &mut O) -> Wrote
        ensures { IsWritten result (O.faults out.old) (O.faults out.new) (O.taken out.old)
            (O.taken out.new) (description_text self) }
    {
        match self {
            Description::List(text) => out.write(&text),
            Description::Refused(fault) => TableReply::of_fault(&fault).write(out),
        }
    }
}

/// Whether the first word of a line is `describe`. It takes no memory.
pub fn is_description(line: &[u8]) -> bool
    ensures { result ≡ describes line.now }
{
    match first_word(line) {
        Some((word, _)) => word == b"describe".as_slice(),
        None => false,
    }
}

// The place of the first byte that is no text.
fn find_not_text(line: &[u8]) -> Option<usize>
    ensures { result ≡ position (λ b. not (is_text_byte b)) line.now }
{
    line.iter().position(|b| !is_text_byte(*b))
}

// What follows the first word of a line.
fn after_first(line: &[u8]) -> &[u8]
    ensures { words_of result.now ≡ drop 1 (words_of line.now) }
{
    match first_word(line) {
        Some((_, rest)) => rest,
        None => line,
    }
}

// The list under a name, or the fault where it is none.
fn describe_name(alloc: Global, schema: &Schema, name: &[u8]) -> Result<Vec<u8>, QueryFault>
    ensures list { IfOk result (λ text. text.items
        ≡ text_of_name schema.now (name_in schema.now name.now)) }
    ensures refused { IfErr result (λ fault. (fault_text fault
        ≡ text_of_name schema.now (name_in schema.now name.now)) ⊎ (fault ≡ faults.Memory)) }
{
    let Some(of) = schema.find(name) else {
        return Err(QueryFault::UnknownName(2));
    };
    let text = list_categories(alloc, schema, of)?;
    Ok(text)
}

// The list for which the words after `describe` ask, or their fault.
fn describe_words(alloc: Global, schema: &Schema, words: &[u8]) -> Result<Vec<u8>, QueryFault>
    ensures list { IfOk result (λ text. text.items
        ≡ text_of_words schema.now (words_of words.now)) }
    ensures refused { IfErr result (λ fault. (fault_text fault
        ≡ text_of_words schema.now (words_of words.now)) ⊎ (fault ≡ faults.Memory)) }
{
    let Some((name, rest)) = first_word(words) else {
        let text = list_names(alloc, schema)?;
        return Ok(text);
    };
    if first_word(rest).is_some() {
        return Err(QueryFault::Syntax(3));
    }
    describe_name(alloc, schema, name)
}

/// The reply to a line whose first word is `describe`: the variables and the recodes, what is under
/// the name that it gives, or the line's first fault. It goes by the schema and the line alone. It
/// takes memory for the list; where that is refused, the reply says so.
pub fn describe(alloc: Global, schema: &Schema, line: &[u8]) -> Description
    requires { length line.now ≤ MOST_LINE_BYTES }
    ensures { Describes schema.now line.now (description_text result) }
{
    if let Some(i) = find_not_text(line) {
        return Description::Refused(QueryFault::NotText(i as u32 + 1));
    }
    match describe_words(alloc, schema, after_first(line)) {
        Ok(text) => Description::List(text),
        Err(fault) => Description::Refused(fault),
    }
}
