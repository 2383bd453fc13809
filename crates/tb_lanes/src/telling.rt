// What analysts and the custodian tell each other before a phase and after it.

ghost use Rattle.std.specs.Prelude.{◌≡◌, ℕ, List, All};
ghost use Rattle.tb_lanes.specs.Lanes.{IsConfirmed, IsTold};
ghost use Rattle.tb_serve.specs.Each.{Each};
ghost use Rattle.tb_session.specs.Parties.{IsAnalystOf, IsOwnerOf, seen_by};

use crate::lane::Lane;
use tb_board::{Board, Custodian, Named};
use tb_session::{Party, confirm, tell};

// The analyst of a lane learns what the custodian has seen.
fn tell_lane<B: Named, G>(board: &Board<B>, custodian: &mut Custodian, lane: &mut Lane<G>)
    requires front { custodian.old.pass.name ≡ B.name }
    requires analyst { IsAnalystOf B.name custodian.old.writer.start.shape lane.old.party }
    ensures same { custodian.new ≡ custodian.old }
    ensures analyst { IsAnalystOf B.name custodian.old.writer.start.shape lane.new.party }
    ensures told { IsTold custodian.old.pass lane.old lane.new }
{
    tell(board, custodian, &mut lane.party);
}

// The analyst of each lane learns what the custodian has seen.
fn tell_lanes<B: Named, G>(board: &Board<B>, custodian: &mut Custodian, lanes: &mut [Lane<G>])
    requires front { custodian.old.pass.name ≡ B.name }
    requires analysts { All (λ lane. IsAnalystOf B.name custodian.old.writer.start.shape lane.party)
        lanes.old }
    ensures same { custodian.new ≡ custodian.old }
    ensures analysts { All (λ lane. IsAnalystOf B.name custodian.old.writer.start.shape lane.party)
        lanes.new }
    ensures told { Each (λ _. IsTold custodian.old.pass) lanes.old lanes.new }
{
    for lane in lanes.iter_mut() {
        tell_lane(board, custodian, lane);
    }
}

// The custodian confirms the pass of a lane's analyst.
#[tactic(auto, using(tb_session::proofs::Analysts::analyst_front, tb_session::proofs::Analysts::analyst_behind))]
fn confirm_lane<B: Named, G>(board: &Board<B>, custodian: &mut Custodian, lane: &mut Lane<G>)
    requires front { custodian.old.writer.name ≡ B.name }
    requires analyst { IsAnalystOf B.name custodian.old.writer.start.shape lane.old.party }
    ensures same { custodian.new ≡ custodian.old }
    ensures confirmed { IsConfirmed custodian.old.writer lane.old lane.new }
{
    confirm(board, custodian, &mut lane.party);
}

// The custodian confirms the pass of each lane's analyst.
fn confirm_lanes<B: Named, G>(board: &Board<B>, custodian: &mut Custodian, lanes: &mut [Lane<G>])
    requires front { custodian.old.writer.name ≡ B.name }
    requires analysts { All (λ lane. IsAnalystOf B.name custodian.old.writer.start.shape lane.party)
        lanes.old }
    ensures same { custodian.new ≡ custodian.old }
    ensures confirmed { Each (λ _. IsConfirmed custodian.old.writer) lanes.old lanes.new }
{
    for lane in lanes.iter_mut() {
        confirm_lane(board, custodian, lane);
    }
}

/// The analyst of each lane learns what the custodian has seen.
pub fn tell_all<B: Named, G>(board: &Board<B>, own: &mut Party, lanes: &mut [Lane<G>])
    requires own { IsOwnerOf B.name (seen_by own.old).start.shape own.old }
    requires analysts { All (λ lane. IsAnalystOf B.name (seen_by own.old).start.shape lane.party)
        lanes.old }
    ensures same { own.new ≡ own.old }
    ensures analysts { All (λ lane. IsAnalystOf B.name (seen_by own.old).start.shape lane.party)
        lanes.new }
    ensures told { Each (λ _. IsTold (seen_by own.old)) lanes.old lanes.new }
{
    match own {
        Party::Custodian(custodian, _) => tell_lanes(board, custodian, lanes),
        Party::Analyst(_) => unreachable!(),
    }
}

/// The custodian confirms the pass of each lane's analyst.
pub fn confirm_all<B: Named, G>(board: &Board<B>, own: &mut Party, lanes: &mut [Lane<G>])
    requires own { IsOwnerOf B.name (seen_by own.old).start.shape own.old }
    requires analysts { All (λ lane. IsAnalystOf B.name (seen_by own.old).start.shape lane.party)
        lanes.old }
    ensures same { own.new ≡ own.old }
    ensures confirmed { Each (λ _. IsConfirmed (seen_by own.old)) lanes.old lanes.new }
{
    match own {
        Party::Custodian(custodian, _) => confirm_lanes(board, custodian, lanes),
        Party::Analyst(_) => unreachable!(),
    }
}
