// The dimensions of a query, each with the variable under it.

ghost use Rattle.std.specs.Prelude.{◌≡◌, ◌<◌, ◌==◌, IfOk, length, map, slice_index};
ghost use Rattle.std.specs.List.{list_any};
ghost use Rattle.tb_model.specs.Schemas.{base_of, category_count, recoded, shape_of};
ghost use Rattle.tb_schema.specs.Names.{IsName};
ghost use Rattle.tb_plan.specs.Plans.{dimension_of};
ghost use Rattle.tb_plan.specs.Whole.{IsDimension};
ghost use Rattle.tb_plan.specs.Views.{dimension_view};

use std::alloc::Global;
use tb_base::Memory;
use tb_model::NameOf;
use tb_schema::Schema;

/// A dimension: its variable, how many categories it has, and which of them each category of the
/// variable falls in.
#[derive(Drop)]
pub struct Dimension {
    pub variable: u16,
    pub categories: u16,
    pub entries: Vec<u16>,
}

/// The variable under a name.
pub fn base_variable(schema: &Schema, of: NameOf) -> u16
    requires { IsName schema.now of }
    ensures base { result ≡ base_of schema.now of }
    ensures there { result < length (shape_of schema.now) }
{
    match of {
        NameOf::Variable(v) => v,
        NameOf::Recode(r) => schema.base_of(r),
    }
}

/// The category under a name in which a category of its variable falls.
pub fn recoded_category(schema: &Schema, of: NameOf, category: u16) -> u16
    requires name { IsName schema.now of }
    requires category { category < slice_index (shape_of schema.now) (base_of schema.now of) }
    ensures category { result ≡ recoded schema.now of category }
    ensures within { result < category_count schema.now of }
{
    match of {
        NameOf::Variable(_) => category,
        NameOf::Recode(r) => schema.group_of(r, category),
    }
}

/// A dimension's part of the plan.
pub fn dimension_for(alloc: Global, schema: &Schema, of: NameOf) -> Result<Dimension, Memory>
    requires name { IsName schema.now of }
    requires some { 0 < category_count schema.now of }
    ensures view { IfOk result (λ d. dimension_view d ≡ dimension_of schema.now of) }
    ensures is { IfOk result (λ d. IsDimension (shape_of schema.now) (dimension_view d)) }
{
    let variable = base_variable(schema, of);
    let mut entries = Vec::new(alloc);
    for category in 0..schema.shape().at(variable as usize) {
        entries.push(recoded_category(schema, of, category))?;
    }
    Ok(Dimension {
        variable,
        categories: schema.categories(of),
        entries,
    })
}

/// Whether a variable is under a dimension.
pub fn has_dimension(dimensions: &[Dimension], v: u16) -> bool
    ensures { result ≡ list_any (λ d. d.variable == v) (map dimension_view dimensions.now) }
{
    for one in dimensions {
        if one.variable == v {
            return true;
        }
    }
    false
}
