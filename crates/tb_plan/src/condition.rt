// The filters of a query, each with the variable under it.

ghost use Rattle.std.specs.Prelude.{◌≡◌, ◌<◌, ◌==◌, IfOk, map, slice_index};
ghost use Rattle.std.specs.List.{list_any};
ghost use Rattle.tb_model.specs.Schemas.{base_of, shape_of};
ghost use Rattle.tb_model.specs.Queries.{passes as passes_filter};
ghost use Rattle.tb_schema.specs.Names.{IsName};
ghost use Rattle.tb_plan.specs.Plans.{condition_of};
ghost use Rattle.tb_plan.specs.Whole.{IsCondition};
ghost use Rattle.tb_plan.specs.Views.{condition_view};

use crate::dimension::{base_variable, recoded_category};
use std::alloc::Global;
use tb_base::{Codes, Memory};
use tb_model::Filter;
use tb_schema::Schema;

/// A filter: its variable, and whether each category of the variable passes.
#[derive(Drop)]
pub struct Condition {
    pub variable: u16,
    pub passed: Vec<bool>,
}

// Whether a category is listed.
fn is_listed(codes: &Codes, category: u16) -> bool
    ensures { result ≡ list_any (λ code. code == category) codes.now }
{
    for i in 0..codes.len() {
        if codes.at(i) == category {
            return true;
        }
    }
    false
}

// Whether a category of its variable passes a filter.
fn passes_at(schema: &Schema, filter: &Filter, category: u16) -> bool
    requires name { IsName schema.now filter.now.of }
    requires category { category
        < slice_index (shape_of schema.now) (base_of schema.now filter.now.of) }
    ensures { result ≡ passes_filter schema.now filter.now (λ _. category) }
{
    let recoded = recoded_category(schema, filter.of, category);
    let listed = is_listed(&filter.codes, recoded);
    if filter.negated { !listed } else { listed }
}

/// A filter's part of the plan.
pub fn condition_for(alloc: Global, schema: &Schema, filter: &Filter) -> Result<Condition, Memory>
    requires { IsName schema.now filter.now.of }
    ensures view { IfOk result (λ f. condition_view f ≡ condition_of schema.now filter.now) }
    ensures is { IfOk result (λ f. IsCondition (shape_of schema.now) (condition_view f)) }
{
    let variable = base_variable(schema, filter.of);
    let mut passed = Vec::new(alloc);
    for category in 0..schema.shape().at(variable as usize) {
        passed.push(passes_at(schema, filter, category))?;
    }
    Ok(Condition { variable, passed })
}

/// Whether a variable is under a filter.
pub fn has_condition(filters: &[Condition], v: u16) -> bool
    ensures { result ≡ list_any (λ f. f.variable == v) (map condition_view filters.now) }
{
    for one in filters {
        if one.variable == v {
            return true;
        }
    }
    false
}
