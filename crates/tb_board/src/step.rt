// A step is an entry of the chain, and not what `tb_base::Steps` counts.

ghost use Rattle.std.specs.Prelude.{◌≡◌};
ghost use Rattle.std.specs.Arc.{arc_value};

use std::marker::Model;
use std::sync::Arc;
use tb_base::Shape;
use tb_front::Entry;
use tb_release::{Batch, Release};

/// The base of a board's chain: the shape that all records fit, and release 0.
#[derive(Drop)]
pub struct Start {
    pub(crate) shape: Shape,
    pub(crate) base: Arc<Release>,
}

impl Model for Start {
    ghost use Rattle.std.specs.Arc.{arc_value};
    ghost use Rattle.tb_board.specs.Starts.{StartValue, start_code};

    ghost Value = { StartValue };

    ghost coded = { start_code };

    ghost view = { λ s. record { shape = s.shape; base = arc_value s.base } };
}

/// An entry of a board's chain: a batch.
#[derive(Drop)]
pub struct Step {
    batch: Arc<Batch>,
}

impl Model for Step {
    ghost use Rattle.std.specs.Arc.{arc_value};
    ghost use Rattle.tb_release.specs.Batches.{BatchValue, batch_code};

    ghost Value = { BatchValue };

    ghost coded = { batch_code };

    ghost view = { λ s. arc_value s.batch };
}

impl Entry for Step {
    ghost use Rattle.tb_board.specs.Starts.{blank_start};

    type Start = Start;

    ghost blank = { blank_start };
}

impl Step {
    // The entry of a batch.
    pub(crate) fn of(batch: Arc<Batch>) -> Step
        ensures { result ≡ arc_value batch }
    {
        Step { batch }
    }
}
