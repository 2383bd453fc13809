// The filters of a query.

ghost use Rattle.std.specs.Prelude.{◌∷◌, ◌<◌, [], IfOk, IfSome, MatchOption, MatchResult, false};
ghost use Rattle.std.specs.Prelude.{length};
ghost use Rattle.tb_query.specs.declared.tokens.Kind.TheVariants.{And, Comma, Not};
ghost use Rattle.tb_query.specs.Reading.{Leads, NotNext, StopsBy, before, last_codes};
ghost use Rattle.tb_query.specs.Reading.{with_filters, with_negated};
ghost use Rattle.tb_query.specs.Steps.{code as code_due, codes as codes_read};
ghost use Rattle.tb_query.specs.Steps.{filters as filters_read, name as name_due};
ghost use Rattle.tb_query.specs.Steps.{negated as negated_due, opening as opening_due, test};
ghost use Rattle.tb_query.specs.Views.{filter_view, filter_views, token_view, token_views};

use super::tree::{FilterTokens, Stop, after, expect, first, name};
use crate::tokens::{Kind, Token};
use std::alloc::Global;

// `(` of a filter.
#[tactic(auto, unfolding(crate::specs::Reading::read_from))]
fn opening<'t, 'a>(tokens: &'t [Token<'a>]) -> Result<&'t [Token<'a>], Stop>
    ensures opening { MatchResult result
        (λ rest. Leads (λ r. r) opening_due (token_views tokens.now)
        code_due (token_views rest.now))
        (StopsBy opening_due (token_views tokens.now)) }
    ensures shorter { IfOk result (λ rest. length rest.now < length tokens.now) }
{
    expect(Kind::Open, tokens)
}

// `in (` of a filter.
#[tactic(auto, unfolding(crate::specs::Reading::read_from))]
fn list_opening<'t, 'a>(tokens: &'t [Token<'a>]) -> Result<&'t [Token<'a>], Stop>
    ensures negated { MatchResult result
        (λ rest. Leads (with_negated false) negated_due (token_views tokens.now)
        code_due (token_views rest.now))
        (StopsBy negated_due (token_views tokens.now)) }
    ensures plain { NotNext Not (token_views tokens.now) → MatchResult result
        (λ rest. Leads (with_negated false) test (token_views tokens.now)
        code_due (token_views rest.now))
        (StopsBy test (token_views tokens.now)) }
    ensures shorter { IfOk result (λ rest. length rest.now < length tokens.now) }
{
    let rest = expect(Kind::In, tokens)?;
    opening(rest)
}

// `in (` or `not in (` of a filter, and whether it is negated.
#[tactic(auto, unfolding(crate::specs::Reading::read_from))]
fn membership<'t, 'a>(tokens: &'t [Token<'a>]) -> Result<(bool, &'t [Token<'a>]), Stop>
    ensures membership { MatchResult result
        (λ x. Leads (with_negated x.0) test (token_views tokens.now)
        code_due (token_views x.1.now))
        (StopsBy test (token_views tokens.now)) }
    ensures shorter { IfOk result (λ x. length x.1.now < length tokens.now) }
{
    if let Some(rest) = after(Kind::Not, tokens) {
        let codes = list_opening(rest)?;
        return Ok((true, codes));
    }
    let codes = list_opening(tokens)?;
    Ok((false, codes))
}

// A code.
#[tactic(auto, unfolding(crate::specs::Reading::read_from))]
fn code<'t, 'a>(tokens: &'t [Token<'a>]) -> Result<(Token<'a>, &'t [Token<'a>]), Stop>
    ensures code { MatchResult result
        (λ x. Leads (before codes_read (token_view x.0)) code_due (token_views tokens.now)
        codes_read (token_views x.1.now))
        (StopsBy code_due (token_views tokens.now)) }
    ensures shorter { IfOk result (λ x. length x.1.now < length tokens.now) }
{
    match first(tokens) {
        None => Err(Stop::Syntax(tokens.len())),
        Some((t, rest)) => match t.kind {
            Kind::Open | Kind::Comma | Kind::Close | Kind::Other => {
                Err(Stop::Syntax(tokens.len()))
            }
            _ => Ok((t, rest)),
        },
    }
}

// `,` before a further code.
#[tactic(auto, unfolding(crate::specs::Reading::read_from))]
fn comma<'t, 'a>(tokens: &'t [Token<'a>]) -> Option<&'t [Token<'a>]>
    ensures comma { MatchOption result (NotNext Comma (token_views tokens.now))
        (λ rest. Leads (λ r. r) codes_read (token_views tokens.now)
        code_due (token_views rest.now)) }
    ensures shorter { IfSome result (λ rest. length rest.now < length tokens.now) }
{
    after(Kind::Comma, tokens)
}

// `)` after the last code.
#[tactic(auto, unfolding(crate::specs::Reading::read_from))]
fn closing<'t, 'a>(tokens: &'t [Token<'a>]) -> Result<&'t [Token<'a>], Stop>
    ensures closing { NotNext Comma (token_views tokens.now) → MatchResult result
        (λ rest. Leads (last_codes []) codes_read (token_views tokens.now)
        filters_read (token_views rest.now))
        (StopsBy codes_read (token_views tokens.now)) }
    ensures shorter { IfOk result (λ rest. length rest.now < length tokens.now) }
{
    expect(Kind::Close, tokens)
}

// The codes of a filter, and `)`.
fn codes<'t, 'a>(
    alloc: Global,
    tokens: &'t [Token<'a>],
) -> Result<(Vec<Token<'a>>, &'t [Token<'a>]), Stop>
    ensures codes { MatchResult result
        (λ x. Leads (last_codes (token_views x.0.items)) code_due (token_views tokens.now)
        filters_read (token_views x.1.now))
        (StopsBy code_due (token_views tokens.now)) }
    ensures shorter { IfOk result (λ x. length x.1.now < length tokens.now) }
{
    let mut codes = Vec::new(alloc);
    let (one, mut rest) = code(tokens)?;
    codes.push(one)?;
    while let Some(next) = comma(rest) {
        let (one, after) = code(next)?;
        codes.push(one)?;
        rest = after;
    }
    let rest = closing(rest)?;
    Ok((codes, rest))
}

// A filter.
fn filter<'t, 'a>(
    alloc: Global,
    tokens: &'t [Token<'a>],
) -> Result<(FilterTokens<'a>, &'t [Token<'a>]), Stop>
    ensures filter { MatchResult result
        (λ x. Leads (with_filters (filter_view x.0 ∷ [])) name_due (token_views tokens.now)
        filters_read (token_views x.1.now))
        (StopsBy name_due (token_views tokens.now)) }
    ensures shorter { IfOk result (λ x. length x.1.now < length tokens.now) }
{
    let (name, rest) = name(tokens)?;
    let (negated, rest) = membership(rest)?;
    let (codes, rest) = codes(alloc, rest)?;
    let filter = FilterTokens {
        name,
        negated,
        codes,
    };
    Ok((filter, rest))
}

// `and` before a further filter.
#[tactic(auto, unfolding(crate::specs::Reading::read_from))]
fn and<'t, 'a>(tokens: &'t [Token<'a>]) -> Option<&'t [Token<'a>]>
    ensures and { MatchOption result (NotNext And (token_views tokens.now))
        (λ rest. Leads (λ r. r) filters_read (token_views tokens.now)
        name_due (token_views rest.now)) }
    ensures shorter { IfSome result (λ rest. length rest.now < length tokens.now) }
{
    after(Kind::And, tokens)
}

/// The filters after `where`.
pub fn filters<'t, 'a>(
    alloc: Global,
    tokens: &'t [Token<'a>],
) -> Result<(Vec<FilterTokens<'a>>, &'t [Token<'a>]), Stop>
    ensures filters { MatchResult result
        (λ x. Leads (with_filters (filter_views x.0.items)) name_due (token_views tokens.now)
        filters_read (token_views x.1.now))
        (StopsBy name_due (token_views tokens.now)) }
    ensures all { IfOk result (λ x. NotNext And (token_views x.1.now)) }
{
    let mut filters = Vec::new(alloc);
    let (one, mut rest) = filter(alloc, tokens)?;
    filters.push(one)?;
    while let Some(next) = and(rest) {
        let (one, after) = filter(alloc, next)?;
        filters.push(one)?;
        rest = after;
    }
    Ok((filters, rest))
}
