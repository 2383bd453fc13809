// The parser by descent: from the tokens of a line to the query that they are.

ghost use Rattle.std.specs.Prelude.{◌≡◌, MatchOption, MatchResult, Ok};
ghost use Rattle.tb_query.specs.declared.tokens.Kind.TheVariants.{Where};
ghost use Rattle.tb_query.specs.Grammar.{IsQuery};
ghost use Rattle.tb_query.specs.Reading.{Leads, NotNext, ParsesNone, StopsBy, read_from, tail_of};
ghost use Rattle.tb_query.specs.Steps.{dimension, dimensions as dimensions_read, name as name_due};
ghost use Rattle.tb_query.specs.Steps.{start};
ghost use Rattle.tb_query.specs.Views.{query_view, token_views};

mod dimensions;
mod ends;
mod filters;
mod tree;

use crate::tokens::{Kind, Token};
use dimensions::dimensions;
use ends::ending;
use filters::filters;
use std::alloc::Global;
use tree::{after, expect};
pub use tree::{FilterTokens, QueryTokens, Stop};

// `table`.
#[tactic(auto, unfolding(crate::specs::Reading::read_from))]
fn table<'t, 'a>(tokens: &'t [Token<'a>]) -> Result<&'t [Token<'a>], Stop>
    ensures { MatchResult result
        (λ rest. Leads (λ r. r) start (token_views tokens.now) dimension (token_views rest.now))
        (StopsBy start (token_views tokens.now)) }
{
    expect(Kind::Table, tokens)
}

// `where` before the first filter.
#[tactic(auto, unfolding(crate::specs::Reading::read_from))]
fn where_<'t, 'a>(tokens: &'t [Token<'a>]) -> Option<&'t [Token<'a>]>
    ensures { MatchOption result (NotNext Where (token_views tokens.now))
        (λ rest. Leads (λ r. r) dimensions_read (token_views tokens.now)
        name_due (token_views rest.now)) }
{
    after(Kind::Where, tokens)
}

// The whole query.
fn query<'a>(alloc: Global, tokens: &[Token<'a>]) -> Result<QueryTokens<'a>, Stop>
    ensures { MatchResult result
        (λ q. read_from start (token_views tokens.now) ≡ Ok (tail_of (query_view q)))
        (StopsBy start (token_views tokens.now)) }
{
    let rest = table(tokens)?;
    let (dimensions, rest) = dimensions(alloc, rest)?;
    let Some(rest) = where_(rest) else {
        let (totals, labels) = ending(rest)?;
        let filters = Vec::new(alloc);
        return Ok(QueryTokens {
            dimensions,
            filters,
            totals,
            labels,
        });
    };
    let (filters, rest) = filters(alloc, rest)?;
    let (totals, labels) = ending(rest)?;
    Ok(QueryTokens {
        dimensions,
        filters,
        totals,
        labels,
    })
}

/// The query that the tokens are.
pub fn parse<'a>(alloc: Global, tokens: &[Token<'a>]) -> Result<QueryTokens<'a>, Stop>
    ensures { MatchResult result (λ q. IsQuery (token_views tokens.now) (query_view q))
        (ParsesNone (token_views tokens.now)) }
{
    query(alloc, tokens)
}
