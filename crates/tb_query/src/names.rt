// What the names of a query stand for, and the first that stands for nothing or stands twice.

ghost use Rattle.std.specs.Prelude.{◌≡◌, All, IfSome, MatchResult, None, Some};
ghost use Rattle.std.specs.Prelude.{bytes_eq, map};
ghost use Rattle.std.specs.List.{list_any};
ghost use Rattle.tb_schema.specs.Names.{IsName};
ghost use Rattle.tb_query.specs.Faults.{IsMade, first_repeat, unknown_in};
ghost use Rattle.tb_query.specs.Meanings.{name_meant, name_of_token};
ghost use Rattle.tb_query.specs.Views.{filter_views, token_view, token_views};

use crate::fault::QueryFault;
use crate::parse::FilterTokens;
use crate::tokens::Token;
use std::alloc::Global;
use tb_model::NameOf;
use tb_schema::Schema;

// The variable or recode that a token names, if there is one.
#[tactic(auto, unfolding(crate::specs::Meanings::name_of_token))]
fn name_of_token(schema: &Schema, t: &Token) -> Option<NameOf>
    ensures name { result ≡ name_of_token schema.now (token_view t.now) }
    ensures within { IfSome result (IsName schema.now) }
{
    schema.find(t.text)
}

/// What a token stands for as a name.
pub fn name_meant(schema: &Schema, t: &Token) -> Result<NameOf, QueryFault>
    ensures { MatchResult result
        (λ of. (name_of_token schema.now (token_view t.now) ≡ Some of) × IsName schema.now of)
        (λ e. (name_of_token schema.now (token_view t.now) ≡ None)
        × (e ≡ QueryFault.UnknownName (token_view t.now).number)) }
{
    match name_of_token(schema, t) {
        Some(of) => Ok(of),
        None => Err(QueryFault::UnknownName(t.number)),
    }
}

/// What these tokens stand for as names.
pub fn names_meant(
    alloc: Global,
    schema: &Schema,
    names: &[Token],
) -> Result<Vec<NameOf>, QueryFault>
    ensures { IsMade result
        (λ v. (v.items ≡ map (name_meant schema.now) (token_views names.now))
        × All (IsName schema.now) v.items)
        QueryFault.UnknownName (unknown_in schema.now (token_views names.now)) }
{
    let mut meant = Vec::new(alloc);
    for t in names {
        let of = name_meant(schema, t)?;
        meant.push(of)?;
    }
    Ok(meant)
}

// Whether one of these tokens has this text.
fn stands_in(text: &[u8], tokens: &[Token]) -> bool
    ensures { result ≡ list_any (λ e. bytes_eq e.text text.now) (token_views tokens.now) }
{
    for t in tokens {
        if t.text == text {
            return true;
        }
    }
    false
}

/// The first name that an earlier one is the same as.
pub fn first_repeat(names: &[Token]) -> Option<u32>
    ensures { result ≡ first_repeat (token_views names.now) }
{
    for (i, t) in names.iter().enumerate() {
        if stands_in(t.text, &names[..i]) {
            return Some(t.number);
        }
    }
    None
}

/// The first name of these filters that is no name.
pub fn unknown_filter(schema: &Schema, filters: &[FilterTokens]) -> Option<u32>
    ensures { result
        ≡ unknown_in schema.now (map (λ f. f.name) (filter_views filters.now)) }
{
    for f in filters {
        if name_of_token(schema, &f.name).is_none() {
            return Some(f.name.number);
        }
    }
    None
}
