// Reading a query line over a schema.

ghost use Rattle.std.specs.Prelude.{◌≡◌, ◌≤◌, IfErr, IfOk, MatchResult, length};
ghost use Rattle.tb_model.specs.Queries.{QueryValue};
ghost use Rattle.tb_query.specs.Faults.{IsRefused, Reads};
ghost use Rattle.tb_query.specs.Over.{IsOver};

use crate::check::query_meant;
use crate::fault::QueryFault;
use crate::limits::MOST_QUERY_BYTES;
use crate::parse::{Stop, parse};
use crate::query::Query;
use crate::tokens::{first_not_text, tokens};
use std::alloc::Global;
use tb_schema::Schema;

// The query of a line, or the line's first fault.
fn read(alloc: Global, schema: &Schema, line: &[u8]) -> Result<Query, QueryFault>
    requires { length line.now ≤ MOST_QUERY_BYTES }
    ensures read { IfOk result (Reads schema.now line.now) }
    ensures refused { IfErr result (IsRefused schema.now line.now) }
{
    if let Some(number) = first_not_text(line) {
        return Err(QueryFault::NotText(number));
    }
    let tokens = tokens(alloc, line)?;
    let query = match parse(alloc, &tokens) {
        Ok(query) => query,
        Err(Stop::Memory) => return Err(QueryFault::Memory),
        Err(Stop::Syntax(left)) => {
            return Err(QueryFault::Syntax((tokens.len() - left + 1) as u32));
        }
    };
    let query = query_meant(alloc, schema, &query)?;
    Ok(query)
}

/// The query of a line, or the line's first fault.
///
/// Names and codes are compared as bytes. A name may be filtered several times, a code may be
/// repeated in a list, and a variable may stand beside a recode of it. It takes memory for the
/// line's tokens and for the query.
pub fn read_query(alloc: Global, schema: &Schema, line: &[u8]) -> Result<Query, QueryFault>
    requires { length line.now ≤ MOST_QUERY_BYTES }
    // The line reads as the query that is returned.
    ensures read { IfOk result (Reads schema.now line.now) }
    // Where it reads as a query, that is returned, or the run is out of memory.
    ensures only { (query : QueryValue) → Reads schema.now line.now query
        → MatchResult result (λ q. q ≡ query) (λ f. f ≡ QueryFault.Memory) }
    ensures over { IfOk result (IsOver schema.now) }
    // A refusal is the line's first fault. Memory can run out at any line.
    ensures refused { IfErr result (IsRefused schema.now line.now) }
{
    read(alloc, schema, line)
}
