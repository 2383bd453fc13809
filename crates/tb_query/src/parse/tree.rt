// What the parser makes of tokens, and why it stops.

ghost use Rattle.std.specs.Prelude.{◌≡◌, ◌∷◌, ◌<◌, [], IfOk, IfSome, MatchOption, MatchResult};
ghost use Rattle.std.specs.Prelude.{length};
ghost use Rattle.tb_query.specs.Reading.{IsNext, Leads, NotNext, StopsBy, before};
ghost use Rattle.tb_query.specs.Steps.{dimension, dimensions as dimensions_read, name as name_due};
ghost use Rattle.tb_query.specs.Steps.{test};
ghost use Rattle.tb_query.specs.Views.{token_view, token_views};

use crate::tokens::{Kind, Token};
use std::alloc::AllocFailed;

/// Why the parser stopped: the tokens are no query, and so many are left from the first that may
/// not stand there; or want of memory.
#[derive(Clone, Copy, Debug, PartialEq, Eq)]
pub enum Stop {
    Syntax(usize),
    Memory,
}

/// A filter, by the tokens of its name and codes.
#[derive(Drop)]
pub struct FilterTokens<'a> {
    pub name: Token<'a>,
    pub negated: bool,
    pub codes: Vec<Token<'a>>,
}

/// A query, by the tokens of its names and codes.
#[derive(Drop)]
pub struct QueryTokens<'a> {
    pub dimensions: Vec<Token<'a>>,
    pub filters: Vec<FilterTokens<'a>>,
    pub totals: bool,
    pub labels: bool,
}

impl<T: Drop> From<AllocFailed<T>> for Stop {
    ghost use Rattle.tb_query.specs.declared.parse.tree.Stop.TheVariants.{Memory};

    ghost from_gives = { λ _ e. e ≡ Memory };

    fn from(_e: AllocFailed<T>) -> Stop {
        Stop::Memory
    }
}

/// The first token, and the tokens after it.
pub fn first<'t, 'a>(tokens: &'t [Token<'a>]) -> Option<(Token<'a>, &'t [Token<'a>])>
    ensures { MatchOption result (token_views tokens.now ≡ [])
        (λ x. token_views tokens.now ≡ token_view x.0 ∷ token_views x.1.now) }
{
    match tokens {
        [] => None,
        [t, rest @ ..] => Some((*t, rest)),
    }
}

/// The tokens after the first, if that is of this kind.
pub fn after<'t, 'a>(kind: Kind, tokens: &'t [Token<'a>]) -> Option<&'t [Token<'a>]>
    ensures next { MatchOption result (NotNext kind (token_views tokens.now))
        (λ rest. IsNext kind (token_views tokens.now) (token_views rest.now)) }
    ensures shorter { IfSome result (λ rest. length rest.now < length tokens.now) }
{
    match first(tokens) {
        Some((t, rest)) if t.kind == kind => Some(rest),
        _ => None,
    }
}

/// The tokens after the first, which must be of this kind.
pub fn expect<'t, 'a>(kind: Kind, tokens: &'t [Token<'a>]) -> Result<&'t [Token<'a>], Stop>
    ensures next { MatchResult result
        (λ rest. IsNext kind (token_views tokens.now) (token_views rest.now))
        (λ e. NotNext kind (token_views tokens.now) × (e ≡ Stop.Syntax (length tokens.now))) }
    ensures shorter { IfOk result (λ rest. length rest.now < length tokens.now) }
{
    after(kind, tokens).ok_or(Stop::Syntax(tokens.len()))
}

/// A name, of a dimension or of a filter.
#[tactic(auto, unfolding(crate::specs::Reading::read_from))]
pub fn name<'t, 'a>(tokens: &'t [Token<'a>]) -> Result<(Token<'a>, &'t [Token<'a>]), Stop>
    ensures of_dimension { MatchResult result
        (λ x. Leads (before dimensions_read (token_view x.0)) dimension (token_views tokens.now)
        dimensions_read (token_views x.1.now))
        (StopsBy dimension (token_views tokens.now)) }
    ensures of_filter { MatchResult result
        (λ x. Leads (before test (token_view x.0)) name_due (token_views tokens.now)
        test (token_views x.1.now))
        (StopsBy name_due (token_views tokens.now)) }
    ensures shorter { IfOk result (λ x. length x.1.now < length tokens.now) }
{
    match first(tokens) {
        None => Err(Stop::Syntax(tokens.len())),
        Some((t, rest)) => match t.kind {
            Kind::Name => Ok((t, rest)),
            _ => Err(Stop::Syntax(tokens.len())),
        },
    }
}
