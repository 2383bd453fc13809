// The end of a query: whether it has totals and labels.

ghost use Rattle.std.specs.Prelude.{◌≡◌, [], MatchResult, Ok, false, true};
ghost use Rattle.tb_query.specs.declared.tokens.Kind.TheVariants.{And, By, Totals, Where};
ghost use Rattle.tb_query.specs.Reading.{Ends, NotNext, StopsBy, no_more, read_from, tail};
ghost use Rattle.tb_query.specs.Steps.{dimensions as dimensions_read, filters as filters_read};
ghost use Rattle.tb_query.specs.Steps.{first_with as first_with_due, labels as labels_read};
ghost use Rattle.tb_query.specs.Steps.{second_with as second_with_due, totals as totals_read};
ghost use Rattle.tb_query.specs.Views.{token_views};

use super::tree::{Stop, after, expect, first};
use crate::tokens::{Kind, Token};

// The end of the line.
#[tactic(auto, unfolding(crate::specs::Reading::read_from))]
fn end(tokens: &[Token]) -> Result<(), Stop>
    ensures { MatchResult result
        (λ _. read_from labels_read (token_views tokens.now) ≡ Ok no_more)
        (StopsBy labels_read (token_views tokens.now)) }
{
    match first(tokens) {
        None => Ok(()),
        Some(_) => Err(Stop::Syntax(tokens.len())),
    }
}

// `labels` after `with`, and the end.
#[tactic(auto, unfolding(crate::specs::Reading::read_from))]
fn labels(tokens: &[Token]) -> Result<(), Stop>
    ensures second { MatchResult result
        (λ _. read_from second_with_due (token_views tokens.now)
        ≡ Ok (tail [] false [] [] false true))
        (StopsBy second_with_due (token_views tokens.now)) }
    ensures first { NotNext Totals (token_views tokens.now) → MatchResult result
        (λ _. read_from first_with_due (token_views tokens.now)
        ≡ Ok (tail [] false [] [] false true))
        (StopsBy first_with_due (token_views tokens.now)) }
{
    let rest = expect(Kind::Labels, tokens)?;
    end(rest)
}

// Whether labels are asked for after totals.
#[tactic(auto, unfolding(crate::specs::Reading::read_from))]
fn after_totals(tokens: &[Token]) -> Result<bool, Stop>
    ensures { MatchResult result
        (λ lab. read_from totals_read (token_views tokens.now)
        ≡ Ok (tail [] false [] [] false lab))
        (StopsBy totals_read (token_views tokens.now)) }
{
    if tokens.is_empty() {
        return Ok(false);
    }
    let rest = expect(Kind::With, tokens)?;
    labels(rest)?;
    Ok(true)
}

// Whether totals and labels are asked for, after the first `with`.
#[tactic(auto, unfolding(crate::specs::Reading::read_from))]
fn first_with(tokens: &[Token]) -> Result<(bool, bool), Stop>
    ensures { MatchResult result
        (λ x. read_from first_with_due (token_views tokens.now)
        ≡ Ok (tail [] false [] [] x.0 x.1))
        (StopsBy first_with_due (token_views tokens.now)) }
{
    if let Some(rest) = after(Kind::Totals, tokens) {
        let labels = after_totals(rest)?;
        return Ok((true, labels));
    }
    labels(tokens)?;
    Ok((false, true))
}

/// Whether totals and labels are asked for, after the dimensions and filters.
#[tactic(auto, unfolding(crate::specs::Reading::read_from))]
pub fn ending(tokens: &[Token]) -> Result<(bool, bool), Stop>
    ensures after_dimensions { NotNext By (token_views tokens.now)
        → NotNext Where (token_views tokens.now)
        → Ends dimensions_read (token_views tokens.now) result }
    ensures after_filters { NotNext And (token_views tokens.now)
        → Ends filters_read (token_views tokens.now) result }
{
    if tokens.is_empty() {
        return Ok((false, false));
    }
    let rest = expect(Kind::With, tokens)?;
    first_with(rest)
}
