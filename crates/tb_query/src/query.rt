// A query over a classification.

ghost use Rattle.std.specs.Prelude.{◌≡◌, ◌<◌, length, slice_index_or};

use std::marker::Model;
use tb_model::{Filter, NameOf};

/// What a line asks for: a table's dimensions, filters on the records, whether it has totals, and
/// whether it shows labels in place of codes. It is made by `read_query` alone.
#[derive(Debug, Drop)]
pub struct Query {
    dimensions: Vec<NameOf>,
    filters: Vec<Filter>,
    totals: bool,
    labels: bool,
}

impl Model for Query {
    ghost use Rattle.tb_model.specs.Queries.{QueryValue};

    ghost Value = { QueryValue };

    ghost view = { λ q. record {
      dimensions = q.dimensions.items;
      filters = q.filters.items;
      totals = q.totals;
      labels = q.labels;
    } };
}

impl Query {
    /// The query of these parts.
    pub(crate) fn of(
        dimensions: Vec<NameOf>,
        filters: Vec<Filter>,
        totals: bool,
        labels: bool,
    ) -> Query
        ensures { result ≡ record {
          dimensions = dimensions.items;
          filters = filters.items;
          totals = totals;
          labels = labels;
        } }
    {
        Query {
            dimensions,
            filters,
            totals,
            labels,
        }
    }

    /// The names of its dimensions, in order.
    pub fn dimensions(&self) -> &[NameOf]
        ensures { result.now ≡ self.now.dimensions }
    {
        &self.dimensions
    }

    /// How many dimensions there are.
    pub fn dims(&self) -> usize
        ensures { result ≡ length self.now.dimensions }
    {
        self.dimensions.len()
    }

    /// The name of dimension `i`, from 0.
    pub fn dim(&self, i: usize) -> NameOf
        requires { i < length self.now.dimensions }
        ensures { (d : NameOf) → result ≡ slice_index_or self.now.dimensions i d }
    {
        self.dimensions[i]
    }

    /// How many filters there are.
    pub fn filters(&self) -> usize
        ensures { result ≡ length self.now.filters }
    {
        self.filters.len()
    }

    /// Its filters, in order.
    pub(crate) fn all_filters(&self) -> &[Filter]
        ensures { result.now ≡ self.now.filters }
    {
        &self.filters
    }

    /// The filter `i`, from 0.
    pub fn filter(&self, i: usize) -> &Filter
        requires { i < length self.now.filters }
        ensures { result.now ≡ slice_index_or self.now.filters i result.now }
    {
        &self.filters[i]
    }

    /// Whether the table has totals.
    pub fn totals(&self) -> bool
        ensures { result ≡ self.now.totals }
    {
        self.totals
    }

    /// Whether the table shows labels in place of codes.
    pub fn labels(&self) -> bool
        ensures { result ≡ self.now.labels }
    {
        self.labels
    }
}
