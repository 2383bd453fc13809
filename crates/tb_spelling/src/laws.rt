// Laws over payloads and edits, as contracts of functions that do nothing.

ghost use Rattle.tb_spelling.specs.Laws.{OneSpelling, ReadIsSpelled, SpelledIsRead};

/// A payload is read as its edits.
pub fn spelled_is_read()
    ensures { SpelledIsRead }
{}

/// What bytes are read as has them as its payload, each of them.
pub fn read_is_spelled()
    ensures { ReadIsSpelled }
{}

/// Bytes are the payload of one list of edits alone.
pub fn one_spelling()
    ensures { OneSpelling }
{}
