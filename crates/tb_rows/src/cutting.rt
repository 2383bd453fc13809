// A file in parts, which are cut before line feeds.

ghost use Rattle.std.specs.Prelude.{◌≡◌, ◌∷◌, ◌+◌, ◌≤◌, ◌<◌, [], true, drop, length, flat_map};
ghost use Rattle.std.specs.Prelude.{IfOk, IfSome};
ghost use Rattle.csv.specs.Machine.{line_feed};
ghost use Rattle.tb_rows.specs.Cutting.{HasNoQuote, all_records};
ghost use Rattle.tb_rows.specs.Records.{records_of};
ghost use Rattle.tb_rows.specs.WholeFiles.{IsFile};

use crate::format::FileFormat;
use crate::header::{Header, read_header};
use memchr::memchr;
use std::alloc::Global;
use tb_base::Memory;

/// A file that was cut: its header, and what follows it in parts, each of which begins with the line
/// feed before which it was cut.
#[derive(Drop)]
pub struct CutFile<'a> {
    pub header: Header,
    pub parts: Vec<&'a [u8]>,
}

// Whether no byte of a text is a quote.
fn has_no_quote(text: &[u8]) -> bool
    ensures { result ≡ true → HasNoQuote text.now }
{
    memchr(b'"', text).is_none()
}

// The place of the first line feed from another place on.
fn line_feed_from(text: &[u8], from: usize) -> Option<usize>
    ensures { IfSome result (λ place. (from ≤ place) × (place < length text.now)
        × (drop place text.now ≡ line_feed ∷ drop (place + 1) text.now)) }
{
    if from >= text.len() {
        return None;
    }
    match memchr(b'\n', &text[from..]) {
        Some(place) => Some(from + place),
        None => None,
    }
}

// Cuts a text without quotes into parts, each but the last of at least so many bytes.
fn cut<'a>(alloc: Global, text: &'a [u8], size: usize) -> Result<Vec<&'a [u8]>, Memory>
    requires plain { HasNoQuote text.now }
    requires size { 0 < size }
    ensures { IfOk result (λ parts. all_records parts.items ≡ records_of text.now) }
{
    let mut parts = Vec::new(alloc);
    let mut rest = text;
    'parts: while let Some(place) = line_feed_from(rest, size) {
        let (part, more) = rest.split_at(place);
        parts.push(part)?;
        rest = more;
    }
    parts.push(rest)?;
    Ok(parts)
}

/// Cuts a file without quotes before line feeds: its header, and what follows it in at most so many
/// parts, all but the last of about the same length. It returns none where the file has a quote, or
/// where what stands before its first line feed isn't a header of this format. It takes memory for
/// the header and the list of parts.
pub fn cut_file<'a, F: FileFormat>(
    alloc: Global,
    format: &F,
    file: &'a [u8],
    parts: usize,
) -> Result<Option<CutFile<'a>>, Memory>
    ensures file { IfOk result (λ o. IfSome o (λ c. IsFile (F.format format.now) file.now
        c.header.width c.header.indices (all_records c.parts.items))) }
    ensures long { IfOk result (λ o. IfSome o (λ c.
        length c.header.indices ≡ length (F.format format.now).columns)) }
{
    if !has_no_quote(file) {
        return Ok(None);
    }
    let Some(end) = line_feed_from(file, 0) else {
        return Ok(None);
    };
    let (front, rest) = file.split_at(end);
    let Some(header) = read_header(alloc, format, front)? else {
        return Ok(None);
    };
    let size = rest.len().div_ceil(parts.max(1)).max(1);
    let parts = cut(alloc, rest, size)?;
    Ok(Some(CutFile { header, parts }))
}
