// What the filters of a query stand for, and the first code that stands for nothing.

ghost use Rattle.std.specs.Prelude.{◌≡◌, IsSome, MatchResult, None, Some, map};
ghost use Rattle.tb_schema.specs.Names.{IsName};
ghost use Rattle.tb_query.specs.Faults.{IsMade, unknown_among, unknown_code, unknown_code_in};
ghost use Rattle.tb_query.specs.Faults.{unknown_in};
ghost use Rattle.tb_query.specs.Meanings.{code_meant, code_of_token, filter_meant};
ghost use Rattle.tb_query.specs.Meanings.{name_of_token};
ghost use Rattle.tb_query.specs.Views.{filter_view, filter_views, token_view, token_views};

use crate::fault::QueryFault;
use crate::names::name_meant;
use crate::parse::FilterTokens;
use crate::tokens::Token;
use std::alloc::Global;
use tb_base::Codes;
use tb_model::{Filter, NameOf};
use tb_schema::Schema;

// What a token stands for as a code under a name.
#[tactic(auto, unfolding(crate::specs::Meanings::code_of_token))]
fn code_meant(schema: &Schema, of: NameOf, t: &Token) -> Result<u16, QueryFault>
    requires { IsName schema.now of }
    ensures { MatchResult result
        (λ number. code_of_token schema.now of (token_view t.now) ≡ Some number)
        (λ e. (code_of_token schema.now of (token_view t.now) ≡ None)
        × (e ≡ QueryFault.UnknownCode (token_view t.now).number)) }
{
    match schema.code_of(of, t.text) {
        Some(number) => Ok(number),
        None => Err(QueryFault::UnknownCode(t.number)),
    }
}

// What these tokens stand for as codes under a name.
fn codes_meant(
    alloc: Global,
    schema: &Schema,
    of: NameOf,
    codes: &[Token],
) -> Result<Codes, QueryFault>
    requires { IsName schema.now of }
    ensures { IsMade result
        (λ numbers. numbers ≡ map (code_meant schema.now of) (token_views codes.now))
        QueryFault.UnknownCode (unknown_among schema.now of (token_views codes.now)) }
{
    let mut numbers = Vec::new(alloc);
    for t in codes {
        let number = code_meant(schema, of, t)?;
        numbers.push(number)?;
    }
    match Codes::of(alloc, &numbers) {
        Ok(codes) => Ok(codes),
        Err(_) => Err(QueryFault::Memory),
    }
}

// What a filter stands for, whose name is there.
fn filter_meant(alloc: Global, schema: &Schema, filter: &FilterTokens) -> Result<Filter, QueryFault>
    requires { IsSome (name_of_token schema.now (filter_view filter.now).name) }
    ensures { IsMade result (λ f. f ≡ filter_meant schema.now (filter_view filter.now))
        QueryFault.UnknownCode (unknown_code_in schema.now (filter_view filter.now)) }
{
    let of = name_meant(schema, &filter.name)?;
    let codes = codes_meant(alloc, schema, of, &filter.codes)?;
    Ok(Filter {
        of,
        negated: filter.negated,
        codes,
    })
}

/// What filters stand for, whose names are there.
pub fn filters_meant(
    alloc: Global,
    schema: &Schema,
    filters: &[FilterTokens],
) -> Result<Vec<Filter>, QueryFault>
    requires { unknown_in schema.now (map (λ f. f.name) (filter_views filters.now)) ≡ None }
    ensures { IsMade result
        (λ fs. fs.items ≡ map (filter_meant schema.now) (filter_views filters.now))
        QueryFault.UnknownCode (unknown_code schema.now (filter_views filters.now)) }
{
    let mut meant = Vec::new(alloc);
    for f in filters {
        let one = filter_meant(alloc, schema, f)?;
        meant.push(one)?;
    }
    Ok(meant)
}
