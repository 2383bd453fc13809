// The query that tokens stand for, or its first fault.
//
// What was made of a part of a query, or its fault, is one record as the only clause (`IsMade`), so
// an exit by `?` is answered by one lemma, `passed_on` or `no_memory` of `proofs/OneMore`: of
// several clauses the search goes through each at every exit. That a query which was read is over
// its schema is no clause but a lemma on `Reads` (`proofs/Refusals`).

ghost use Rattle.std.specs.Prelude.{◌≡◌, ◌≤◌, ◌*◌, ◌+◌, ℕ, All, IfErr, IfOk, None, nat_lt};
ghost use Rattle.std.specs.Prelude.{if◌then◌else◌};
ghost use Rattle.tb_model.specs.Schemas.{category_count};
ghost use Rattle.tb_schema.specs.Names.{IsName};
ghost use Rattle.tb_query.specs.Faults.{RefusesBy, is_too_large, refusal};
ghost use Rattle.tb_query.specs.Meanings.{query_meant};
ghost use Rattle.tb_query.specs.Views.{query_view};

use crate::codes::filters_meant;
use crate::fault::QueryFault;
use crate::limits::{MOST_DIMENSIONS, MOST_FILTERS, MOST_PLACES};
use crate::names::{first_repeat, names_meant, unknown_filter};
use crate::parse::QueryTokens;
use crate::query::Query;
use std::alloc::Global;
use tb_model::NameOf;
use tb_schema::Schema;

// How many entries a dimension of a query has, Total among them.
fn size_of(schema: &Schema, query: &Query, of: NameOf) -> u64
    requires { IsName schema.now of }
    ensures count { result
        ≡ category_count schema.now of + (if query.now.totals then 1 else 0) }
    ensures few { result ≤ 65536 }
{
    u64::from(schema.categories(of)) + u64::from(query.totals())
}

// The product, or `MOST_PLACES` and one where it is more.
#[tactic(auto, using(crate::proofs::Capped::capped))]
fn times(places: u64, size: u64) -> u64
    requires few { places ≤ MOST_PLACES + 1 }
    requires few_entries { size ≤ 65536 }
    ensures product { (rest : ℕ) →
        nat_lt MOST_PLACES (result * rest) ≡ nat_lt MOST_PLACES (places * (size * rest)) }
    ensures few { result ≤ MOST_PLACES + 1 }
{
    (places * size).min(MOST_PLACES as u64 + 1)
}

// Whether a query's table has too many places.
fn is_too_large(schema: &Schema, query: &Query) -> bool
    requires { All (IsName schema.now) query.now.dimensions }
    ensures { result ≡ is_too_large schema.now query.now }
{
    let mut places: u64 = 1;
    let dimensions = query.dimensions();
    for of in dimensions {
        places = times(places, size_of(schema, query, *of));
    }
    places > MOST_PLACES as u64
}

/// The query that the tokens stand for, or the first fault of what they stand for.
pub fn query_meant(alloc: Global, schema: &Schema, query: &QueryTokens) -> Result<Query, QueryFault>
    ensures meant { IfOk result (λ q. q ≡ query_meant schema.now (query_view query.now)) }
    ensures no_fault { IfOk result (λ _. refusal schema.now (query_view query.now) ≡ None) }
    ensures refused { IfErr result
        (λ e. RefusesBy e (refusal schema.now (query_view query.now))) }
{
    let dimensions = names_meant(alloc, schema, &query.dimensions)?;
    if let Some(number) = unknown_filter(schema, &query.filters) {
        return Err(QueryFault::UnknownName(number));
    }
    let filters = filters_meant(alloc, schema, &query.filters)?;
    if let Some(number) = first_repeat(&query.dimensions) {
        return Err(QueryFault::RepeatedDimension(number));
    }
    if dimensions.len() > MOST_DIMENSIONS {
        return Err(QueryFault::TooManyDimensions);
    }
    if filters.len() > MOST_FILTERS {
        return Err(QueryFault::TooManyFilters);
    }
    let meant = Query::of(dimensions, filters, query.totals, query.labels);
    if is_too_large(schema, &meant) {
        return Err(QueryFault::TooLarge);
    }
    Ok(meant)
}
