// The error of a writing that was cut off.

/// The sink failed, after a first part of the text.
#[derive(Clone, Copy)]
pub(crate) struct Cut;
