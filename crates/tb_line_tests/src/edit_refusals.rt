// Lines of edits that are refused.

use crate::making::{schema, wide_schema};
use std::alloc::Global;
use std::test::Fail;
use tb_base::Memory;
use tb_revise::{EditTextFault, read_edit};
use tb_schema::Schema;

// Lines, and the number and the word of their first fault.
type Refused = (&'static [u8], u8, &'static str);

static REFUSED: [Refused; 40] = [
    // No word, or none of an edit; a byte that is no text; a word is missing, or one too many; a
    // setting without `=`.
    (b" \t ", 1, "Syntax"),
    (b"Drop 101", 1, "Syntax"),
    (b"amends 101 SEX=1", 1, "Syntax"),
    (b"drop 101\r", 1, "Syntax"),
    (b"amend 101 SEX=\xFF", 1, "Syntax"),
    (b"drop", 1, "Syntax"),
    (b"add 300", 1, "Syntax"),
    (b"amend 101", 1, "Syntax"),
    (b"drop 101 SEX=1", 1, "Syntax"),
    (b"amend 101 SEX =1", 1, "Syntax"),
    // No number, and numbers out of range.
    (b"drop 0000000000", 2, "BadNumber"),
    (b"drop 4294967296", 2, "BadNumber"),
    (b"drop 00000000001", 2, "BadNumber"),
    (b"drop +1", 2, "BadNumber"),
    (b"add 300 256 SEX=1 AGE=65+ AREA=E1", 2, "BadNumber"),
    (b"add 300 SEX=1 AGE=65+ AREA=E1", 2, "BadNumber"),
    // No variable: another case, a recode, nothing.
    (b"amend 101 sex=1", 3, "UnknownName"),
    (b"amend 101 AGE2=young", 3, "UnknownName"),
    (b"amend 101 =1", 3, "UnknownName"),
    // No code of the variable: another's, a group, a label, more than a code, nothing.
    (b"amend 101 AGE=7", 4, "UnknownCode"),
    (b"amend 101 AGE=young", 4, "UnknownCode"),
    (b"amend 101 SEX=Male", 4, "UnknownCode"),
    (b"amend 101 SEX=1=2", 4, "UnknownCode"),
    (b"amend 101 SEX=", 4, "UnknownCode"),
    // A variable that is set twice, and one that an add doesn't set.
    (b"amend 101 SEX=1 AGE=65+ SEX=1", 5, "Repeated"),
    (b"add 300 9 SEX=1 AGE=65+ AREA=E1 AGE=0-15", 5, "Repeated"),
    (b"add 300 1 SEX=1", 6, "Missing"),
    (b"add 300 1", 6, "Missing"),
    // Two faults in one line, each of them first.
    (b"drop 0 101", 1, "Syntax"),
    (b"amend 101 FOO=1 SEX", 1, "Syntax"),
    (b"amend 101 AGE SEX=1 SEX=1", 1, "Syntax"),
    (b"amend 0 FOO=1", 2, "BadNumber"),
    (b"add 300 256 AGE=7", 2, "BadNumber"),
    (b"add 0 9 SEX=1", 2, "BadNumber"),
    (b"amend 101 AGE=7 FOO=1", 3, "UnknownName"),
    (b"amend 101 SEX=1 SEX=1 FOO=1", 3, "UnknownName"),
    (b"add 300 9 SEX=1 FOO=1", 3, "UnknownName"),
    (b"amend 101 SEX=1 SEX=1 AGE=7", 4, "UnknownCode"),
    (b"add 300 9 AGE=7", 4, "UnknownCode"),
    (b"add 300 9 SEX=1 SEX=2", 5, "Repeated"),
];

fn refused() -> &'static [Refused] {
    &REFUSED
}

// Of the rules.
static RULES_REFUSED: [Refused; 49] = [
    // Another word, a byte that is no text, a word is missing, or one too many.
    (b"Pvalue 3 64 5", 1, "Syntax"),
    (b"thresholds 3", 1, "Syntax"),
    (b"pvalue 3 64 5\r", 1, "Syntax"),
    (b"pvalue", 1, "Syntax"),
    (b"pvalue 3", 1, "Syntax"),
    (b"pvalue 3 64", 1, "Syntax"),
    (b"pvalue 3 64 - 5", 1, "Syntax"),
    (b"pvalue 3 64 5 SEX=1", 1, "Syntax"),
    (b"threshold", 1, "Syntax"),
    (b"threshold 3 4", 1, "Syntax"),
    (b"Oldest 1", 1, "Syntax"),
    (b"oldest 1\r", 1, "Syntax"),
    (b"oldest", 1, "Syntax"),
    (b"oldest 1 2", 1, "Syntax"),
    // The row is no number from 1 to 750.
    (b"pvalue 0 0 0", 2, "BadNumber"),
    (b"pvalue 751 64 5", 2, "BadNumber"),
    (b"pvalue 65539 64 5", 2, "BadNumber"),
    (b"pvalue -3 64 5", 2, "BadNumber"),
    (b"pvalue 00000000003 64 5", 2, "BadNumber"),
    (b"pvalue PCV 64 5", 2, "BadNumber"),
    // The key is no number from 0 to 255.
    (b"pvalue 3 256 5", 2, "BadNumber"),
    (b"pvalue 3 65600 5", 2, "BadNumber"),
    (b"pvalue 3 -0 5", 2, "BadNumber"),
    (b"pvalue 3 0x40 5", 2, "BadNumber"),
    // The pvalue is no signed number from -1000 to 1000, or below the row's count.
    (b"pvalue 3 64 -4", 2, "BadNumber"),
    (b"pvalue 750 64 -751", 2, "BadNumber"),
    (b"pvalue 750 64 -1001", 2, "BadNumber"),
    (b"pvalue 750 64 1001", 2, "BadNumber"),
    (b"pvalue 3 64 65541", 2, "BadNumber"),
    (b"pvalue 3 64 -65536", 2, "BadNumber"),
    (b"pvalue 3 64 4294967296", 2, "BadNumber"),
    (b"pvalue 3 64 +5", 2, "BadNumber"),
    (b"pvalue 3 64 --1", 2, "BadNumber"),
    (b"pvalue 3 64 -", 2, "BadNumber"),
    (b"pvalue 3 64 SEX=1", 2, "BadNumber"),
    // The threshold is no number from 0 to 1000000.
    (b"threshold 1000001", 2, "BadNumber"),
    (b"threshold 4294967296", 2, "BadNumber"),
    (b"threshold -0", 2, "BadNumber"),
    (b"threshold 00000000003", 2, "BadNumber"),
    (b"threshold c", 2, "BadNumber"),
    // The release is no number.
    (b"oldest 4294967296", 2, "BadNumber"),
    (b"oldest -0", 2, "BadNumber"),
    (b"oldest 00000000001", 2, "BadNumber"),
    (b"oldest +1", 2, "BadNumber"),
    (b"oldest now", 2, "BadNumber"),
    // Two faults in one line.
    (b"pvalue 0 256", 1, "Syntax"),
    (b"pvalue 3 64 -4 0", 1, "Syntax"),
    (b"threshold 1000001 c", 1, "Syntax"),
    (b"oldest 4294967296 x", 1, "Syntax"),
];

fn rules_refused() -> &'static [Refused] {
    &RULES_REFUSED
}

// With the key range 4096.
static WIDE_REFUSED: [Refused; 6] = [
    (b"add 300 4096 SEX=1 AGE=65+ AREA=E1", 2, "BadNumber"),
    (b"add 300 65536 SEX=1 AGE=65+ AREA=E1", 2, "BadNumber"),
    (b"pvalue 3 4096 5", 2, "BadNumber"),
    (b"pvalue 3 65600 5", 2, "BadNumber"),
    (b"pvalue 751 4095 5", 2, "BadNumber"),
    (b"pvalue 3 4095 -4", 2, "BadNumber"),
];

fn wide_refused() -> &'static [Refused] {
    &WIDE_REFUSED
}

fn is_fault(fault: EditTextFault, number: u8, word: &str) -> bool {
    match fault.name() {
        Some(name) => name.number() == number && name.word() == word,
        None => false,
    }
}

fn is_refused(alloc: Global, schema: &Schema, line: &[u8], number: u8, word: &str) -> bool {
    match read_edit(alloc, schema, line) {
        Ok(_) => false,
        Err(fault) => is_fault(fault, number, word),
    }
}

// The place of the first line that isn't refused so.
fn wrong_refusal(alloc: Global, schema: &Schema, rows: &[Refused]) -> Option<usize> {
    for (i, (line, number, word)) in rows.iter().enumerate() {
        if !is_refused(alloc, schema, line, *number, word) {
            return Some(i);
        }
    }
    None
}

fn wrong_refusal_of_small(alloc: Global) -> Result<Option<usize>, Memory> {
    let schema = schema(alloc)?;
    Ok(wrong_refusal(alloc, &schema, refused()))
}

fn wrong_refusal_of_rules(alloc: Global) -> Result<Option<usize>, Memory> {
    let schema = schema(alloc)?;
    Ok(wrong_refusal(alloc, &schema, rules_refused()))
}

fn wrong_refusal_of_wide(alloc: Global) -> Result<Option<usize>, Memory> {
    let schema = wide_schema(alloc)?;
    Ok(wrong_refusal(alloc, &schema, wide_refused()))
}

#[test]
fn edit_refusals(rt: HostRuntime) -> Result<(), Fail> {
    assert_eq!(rt; wrong_refusal_of_small(rt.alloc())?, None);
    assert_eq!(rt; wrong_refusal_of_rules(rt.alloc())?, None);
    assert_eq!(rt; wrong_refusal_of_wide(rt.alloc())?, None);
    Ok(())
}

#[test]
fn text_of_edit_fault(rt: HostRuntime) -> Result<(), Fail> {
    let text = format!(in rt.alloc(); "{}; {}", EditTextFault::Repeated, EditTextFault::Memory)?;
    assert_eq!(rt;
        text.as_str(),
        "a variable must not be set twice; out of memory"
    );
    Ok(())
}
