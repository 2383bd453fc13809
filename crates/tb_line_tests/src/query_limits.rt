// Lines at the limits of dimensions, filters and places.

use crate::making::schema_of;
use crate::query_lines::{is_refused, prints_as};
use std::alloc::Global;
use std::test::Fail;
use tb_base::Memory;
use tb_schema::Schema;

// A and B have 7 categories, C to H have 4, I has 8 and R has 1. With totals A to H have
// 8 * 8 * 5 * 5 * 5 * 5 * 5 * 5 = 1,000,000 places.
const SIZES: &[u8] = b"variable,code,label\n\
    A,0,\nA,1,\nA,2,\nA,3,\nA,4,\nA,5,\nA,6,\nB,0,\nB,1,\nB,2,\nB,3,\nB,4,\nB,5,\nB,6,\n\
    C,0,\nC,1,\nC,2,\nC,3,\nD,0,\nD,1,\nD,2,\nD,3,\nE,0,\nE,1,\nE,2,\nE,3,\n\
    F,0,\nF,1,\nF,2,\nF,3,\nG,0,\nG,1,\nG,2,\nG,3,\nH,0,\nH,1,\nH,2,\nH,3,\n\
    I,0,\nI,1,\nI,2,\nI,3,\nI,4,\nI,5,\nI,6,\nI,7,\nR,0,\n";

fn sizes(alloc: Global) -> Result<Schema, Memory> {
    schema_of(alloc, SIZES, None)
}

static MOST: &'static str = "table A by B by C by D by E by F by G by H with totals";

// Lines past a limit, and the word and the position of their fault.
static PAST: [(&'static str, &'static str, u32); 4] = [
    (
        "table I by B by C by D by E by F by G by H with totals",
        "TooLarge",
        0,
    ),
    (
        "table A by B by C by D by E by F by G by I with totals",
        "TooLarge",
        0,
    ),
    (
        "table A by B by C by D by E by F by G by H by R",
        "TooManyDimensions",
        0,
    ),
    (
        "table A by B by C by D by E by F by G by H by A",
        "RepeatedDimension",
        18,
    ),
];

fn past() -> &'static [(&'static str, &'static str, u32)] {
    &PAST
}

// Whether the query of most places is read.
fn most_are_read(alloc: Global) -> Result<bool, Memory> {
    let schema = sizes(alloc)?;
    prints_as(alloc, &schema, MOST.as_bytes(), MOST.as_bytes())
}

// The place of the first line past a limit that isn't refused so.
fn wrong_past(alloc: Global, schema: &Schema) -> Option<usize> {
    for (i, (line, word, position)) in past().iter().enumerate() {
        if !is_refused(alloc, schema, line.as_bytes(), word, *position) {
            return Some(i);
        }
    }
    None
}

fn wrong_past_of_sizes(alloc: Global) -> Result<Option<usize>, Memory> {
    let schema = sizes(alloc)?;
    Ok(wrong_past(alloc, &schema))
}

#[test]
fn most_places(rt: HostRuntime) -> Result<(), Fail> {
    assert!(rt; most_are_read(rt.alloc())?);
    assert_eq!(rt; wrong_past_of_sizes(rt.alloc())?, None);
    Ok(())
}

// A query with so many filters.
fn filtered(alloc: Global, front: &[u8], filters: usize) -> Result<Vec<u8>, Memory> {
    let mut line = Vec::from_slice(alloc, front)?;
    line.extend_from_slice(b" where R in (0)")?;
    for _ in 1..filters {
        line.extend_from_slice(b" and R in (0)")?;
    }
    Ok(line)
}

// Whether sixteen filters are accepted, and seventeen are refused.
fn ends_at_most_filters(alloc: Global, schema: &Schema) -> Result<bool, Memory> {
    let most = filtered(alloc, b"table A", 16)?;
    let more = filtered(alloc, b"table A", 17)?;
    Ok(
        prints_as(alloc, schema, &most, &most)?
            && is_refused(alloc, schema, &more, "TooManyFilters", 0),
    )
}

// Whether too many filters are told before too many places, and after too many dimensions.
fn filters_stand_between(alloc: Global, schema: &Schema) -> Result<bool, Memory> {
    let larger = filtered(alloc, b"table I by B by C by D by E by F by G by H", 17)?;
    let longer = filtered(
        alloc,
        b"table A by B by C by D by E by F by G by H by R",
        17,
    )?;
    Ok(
        is_refused(alloc, schema, &larger, "TooManyFilters", 0)
            && is_refused(alloc, schema, &longer, "TooManyDimensions", 0),
    )
}

fn sizes_end_at_most_filters(alloc: Global) -> Result<bool, Memory> {
    let schema = sizes(alloc)?;
    ends_at_most_filters(alloc, &schema)
}

fn filters_of_sizes_stand_between(alloc: Global) -> Result<bool, Memory> {
    let schema = sizes(alloc)?;
    filters_stand_between(alloc, &schema)
}

#[test]
fn most_filters(rt: HostRuntime) -> Result<(), Fail> {
    assert!(rt; sizes_end_at_most_filters(rt.alloc())?);
    assert!(rt; filters_of_sizes_stand_between(rt.alloc())?);
    Ok(())
}
