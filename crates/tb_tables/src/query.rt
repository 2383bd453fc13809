// A query's line, and what is worked out of the query before anything is counted.
//
// These are small, so that a large function never opens the setup: `plan_for` and `shape_in` speak
// of its value, where a field of it would tell of what stands inside.

ghost use Rattle.std.specs.Prelude.{◌≡◌, ◌≤◌, IfErr, IfOk, length};
ghost use Rattle.tb_io.specs.declared.limits.TheConstants.{MOST_LINE_BYTES};
ghost use Rattle.tb_model.specs.Schemas.{shape_of};
ghost use Rattle.tb_plan.specs.Plans.{plan_of};
ghost use Rattle.tb_query.specs.Faults.{IsRefused, Reads};
ghost use Rattle.tb_query.specs.Over.{IsOver};

use std::alloc::Global;
use tb_base::{Memory, Shape};
use tb_plan::Plan;
use tb_query::{Query, QueryFault, read_query};
use tb_text::Setup;

/// The query of a line, or the line's first fault. It takes memory for what it reads.
pub fn read(alloc: Global, setup: &Setup, line: &[u8]) -> Result<Query, QueryFault>
    requires { length line.now ≤ MOST_LINE_BYTES }
    ensures read { IfOk result (Reads setup.now.schema line.now) }
    ensures over { IfOk result (IsOver setup.now.schema) }
    ensures refused { IfErr result (IsRefused setup.now.schema line.now) }
{
    read_query(alloc, &setup.schema, line)
}

/// The plan of a query. It takes memory for it.
pub fn plan_for(alloc: Global, setup: &Setup, query: &Query) -> Result<Plan, Memory>
    requires { IsOver setup.now.schema query.now }
    ensures { IfOk result (λ plan. plan ≡ plan_of setup.now.schema query.now) }
{
    Plan::of(alloc, &setup.schema, query)
}

/// The shape that all records fit.
pub fn shape_in(setup: &Setup) -> &Shape
    ensures { result.now ≡ shape_of setup.now.schema }
{
    setup.schema.shape()
}
