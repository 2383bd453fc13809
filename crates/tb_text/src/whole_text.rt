// A sink that keeps the whole text.

ghost use Rattle.std.specs.Prelude.{◌≡◌, ◌++◌, [], Some, IfOk, codes};
ghost use Rattle.tb_model.specs.Texts.{line_text};

use crate::bytes::Bytes;
use std::alloc::Global;
use tb_base::Memory;
use tb_io::{Sink, Wrote};

/// A text that grows with what is written. A write fails where it is out of memory for it.
#[derive(Drop)]
pub(crate) struct WholeText {
    text: Vec<u8>,
    faults: u64,
}

impl WholeText {
    /// An empty text.
    pub(crate) fn new(alloc: Global) -> WholeText
        ensures { result.text.items ≡ [] }
    {
        WholeText {
            text: Vec::new(alloc),
            faults: 0,
        }
    }

    /// The text with the bytes that wait and the last line: nothing but these, where nothing was
    /// written.
    pub(crate) fn end_with(self, waiting: Bytes) -> Result<Vec<u8>, Memory>
        ensures { IfOk result (λ text. text.items
            ≡ (self.text.items ++ waiting) ++ line_text (codes ".")) }
    {
        let mut end = waiting;
        end.push_slice(b".\n")?;
        let end = end.into_vec();
        let mut text = self.text;
        if text.is_empty() {
            return Ok(end);
        }
        text.extend_from_slice(&end)?;
        Ok(text)
    }
}

impl Sink for WholeText {
    ghost faults = { λ sink. sink.faults };

    ghost taken = { λ sink. Some sink.text.items };

    fn write(&mut self, bytes: &[u8]) -> Wrote {
        match self.text.extend_from_slice(bytes) {
            Ok(()) => Wrote::All,
            Err(_) => {
                self.faults = self.faults.saturating_add(1);
                Wrote::Failed
            }
        }
    }
}
