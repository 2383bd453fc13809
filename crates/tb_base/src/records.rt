ghost use Rattle.std.specs.Prelude.{◌≡◌, IfOk};

use crate::codes::Codes;
use crate::memory::Memory;

/// One person's record.
///
/// `person` is the person's number, `key` the permanent random record key (below `MOST_KEYS`), and
/// `codes` has the number of the person's category for each variable, in the order of the
/// classification.
#[derive(Debug, Drop)]
pub struct Record {
    pub person: u32,
    pub key: u16,
    pub codes: Codes,
}

impl Record {
    /// An equal record. It takes memory where the record has more than seven variables.
    pub fn copy(&self) -> Result<Record, Memory>
        ensures { IfOk result (λ record'. record' ≡ self.now) }
    {
        Ok(Record {
            person: self.person,
            key: self.key,
            codes: self.codes.copy()?,
        })
    }
}
