// The dimensions of a query.

ghost use Rattle.std.specs.Prelude.{◌<◌, IfOk, IfSome, MatchOption, MatchResult, length};
ghost use Rattle.tb_query.specs.declared.tokens.Kind.TheVariants.{By};
ghost use Rattle.tb_query.specs.Reading.{Leads, NotNext, StopsBy, with_dimensions};
ghost use Rattle.tb_query.specs.Steps.{dimension, dimensions as dimensions_read};
ghost use Rattle.tb_query.specs.Views.{token_views};

use super::tree::{Stop, after, name};
use crate::tokens::{Kind, Token};
use std::alloc::Global;

// `by` before a further dimension.
#[tactic(auto, unfolding(crate::specs::Reading::read_from))]
fn by<'t, 'a>(tokens: &'t [Token<'a>]) -> Option<&'t [Token<'a>]>
    ensures by { MatchOption result (NotNext By (token_views tokens.now))
        (λ rest. Leads (λ r. r) dimensions_read (token_views tokens.now)
        dimension (token_views rest.now)) }
    ensures shorter { IfSome result (λ rest. length rest.now < length tokens.now) }
{
    after(Kind::By, tokens)
}

/// The dimensions.
pub fn dimensions<'t, 'a>(
    alloc: Global,
    tokens: &'t [Token<'a>],
) -> Result<(Vec<Token<'a>>, &'t [Token<'a>]), Stop>
    ensures dimensions { MatchResult result
        (λ x. Leads (with_dimensions (token_views x.0.items)) dimension (token_views tokens.now)
        dimensions_read (token_views x.1.now))
        (StopsBy dimension (token_views tokens.now)) }
    ensures all { IfOk result (λ x. NotNext By (token_views x.1.now)) }
{
    let mut names = Vec::new(alloc);
    let (one, mut rest) = name(tokens)?;
    names.push(one)?;
    while let Some(next) = by(rest) {
        let (one, after) = name(next)?;
        names.push(one)?;
        rest = after;
    }
    Ok((names, rest))
}
