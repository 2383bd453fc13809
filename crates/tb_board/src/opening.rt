ghost use Rattle.std.specs.Prelude.{◌≡◌, ◌<◌, ◌≤◌, IfOk};
ghost use Rattle.tb_base.specs.Records.{AllFit};
ghost use Rattle.tb_cache.specs.declared.TheConstants.{MOST_ENTRIES};

use crate::custodian::Custodian;
use crate::step::{Start, Step};
use std::alloc::Global;
use std::marker::Model;
use std::sync::Arc;
use tb_base::{Memory, Shape};
use tb_core::Desk;
use tb_front::{Front, Keeper};
use tb_release::Release;

/// What a board is made of, before its front's name is picked: a desk at release 0, the front with
/// its keeper, and the custodian. It is seen as the front's name and the start of the chain.
#[derive(Drop)]
pub struct Opening {
    pub(crate) front: Front<Step>,
    pub(crate) keeper: Keeper<Step>,
    pub(crate) desk: Desk,
    pub(crate) custodian: Custodian,
}

impl Model for Opening {
    ghost use Rattle.std.specs.Prelude.{◌≡◌, []};
    ghost use Rattle.tb_board.specs.Custodians.{OpeningValue, first_custodian, opening_code};
    ghost use Rattle.tb_board.specs.Holders.{holder_at, start_of};

    ghost Value = { OpeningValue };

    ghost coded = { opening_code };

    ghost view = { λ o. record { name = o.front; start = start_of o.desk } };

    ghost invariant = { λ o. (o.keeper ≡ holder_at o.front o.desk)
        × (o.desk.chain ≡ [])
        × (o.custodian ≡ first_custodian (record { name = o.front; start = start_of o.desk })) };
}

impl Opening {
    /// Makes all that a board needs, for records of this shape and from this release 0 on; at most
    /// `capacity` cubes are kept, from 1 to `MOST_ENTRIES`. It takes memory; where that is refused,
    /// the base is given up.
    pub fn new(
        alloc: Global,
        shape: &Shape,
        base: Release,
        capacity: u32,
    ) -> Result<Opening, Memory>
        requires first { base.number ≡ 0 }
        requires fit { AllFit shape.now base.records }
        requires some { 0 < capacity }
        requires few { capacity ≤ MOST_ENTRIES }
        ensures { IfOk result
            (λ opening. opening.start ≡ record { shape = shape.now; base = base }) }
    {
        let start = Start {
            shape: shape.copy()?,
            base: Arc::new(alloc, base)?,
        };
        let (front, writer, mut keeper) = Front::new(alloc, &start)?;
        let pass = keeper.pass(&front);
        let desk = Desk::new(alloc, shape, Arc::try_clone(&start.base)?, capacity)?;
        desk.soundness();
        let Start { shape, base } = start;
        let custodian = Custodian {
            writer,
            pass,
            shape,
            release: base,
        };
        Ok(Opening {
            front,
            keeper,
            desk,
            custodian,
        })
    }
}
