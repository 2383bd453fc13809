// The sessions of ports that are ready, over a board whose chain may have begun.

ghost use Rattle.std.specs.Prelude.{◌≡◌, ◌<◌, ℕ, All, length, slice_index_or};
ghost use Rattle.tb_lines.specs.Outputs.{Lead};
ghost use Rattle.tb_model.specs.Schemas.{shape_of};
ghost use Rattle.tb_serve.specs.Each.{Each};
ghost use Rattle.tb_serve.specs.Ports.{PortValue};
ghost use Rattle.tb_serve.specs.Serves.{HasServed, IsVisited};
ghost use Rattle.tb_serve.specs.Stages.{IsLeft, IsReady};
ghost use Rattle.tb_session.specs.Parties.{IsPassOf};

use crate::closing::{clear_all, confirm_all};
use crate::port::Port;
use crate::seating::seat_all;
use crate::workers::work_all;
use std::sync::Wait;
use std::thread::Threads;
use tb_board::Named;
use tb_io::Listen;
use tb_session::{Owner, Seat, Setting};

/// Serves the sessions of ports that are ready, over one board: at the first port as the owner, who
/// holds the board's custodian and answers over a setting of its own, and at each other one as an
/// analyst, from what the custodian wrote by then.
///
/// A worker for each port, in a thread of its own where one can be made, serves up to `sessions`
/// sessions, one after another, until none is to come or its accept failed; a session that ends by
/// a fault ends no other. An analyst's port has one pass for all its sessions.
///
/// The owner comes back, and nothing is written: `end_with_report` writes what the ports tell.
/// Memory is taken for the replies alone. At the return no port has a party or a reader of lines.
pub fn serve_from<
    C: Sync,
    B: Named + Send + Sync,
    W: Owner<C, B> + Send,
    N: Listen + Send,
    R: Threads + Wait + Sync,
>(
    setting: &Setting<'_, B, R>,
    own_setting: &C,
    sessions: u32,
    mut owner: W,
    ports: &mut [Port<N>],
) -> W
    requires ready { W.IsReady own_setting.now owner }
    requires writer { IsPassOf B.name (shape_of setting.now.setup.now.schema) (W.writer owner) }
    requires some { 0 < length ports.old }
    requires can { All IsReady ports.old }
    ensures ready { W.IsReady own_setting.now result }
    // Its own replies led the owner from one state to the other.
    ensures first { (d : PortValue) → IsVisited (Lead (W.Step own_setting.now)) W.fresh sessions
        (W.state owner) (W.state result) (slice_index_or ports.old 0 d)
        (slice_index_or ports.new 0 d) }
    // An analyst began at what the custodian had written, and ended at a beginning of what it has.
    ensures others { (i : ℕ) (d : PortValue) → 0 < i → i < length ports.old
        → HasServed setting.now.setup.now (W.writer owner).start.base sessions
        (W.writer owner).list (W.writer result).list i (slice_index_or ports.old i d)
        (slice_index_or ports.new i d) }
    ensures left { Each (λ _. IsLeft) ports.old ports.new }
{
    seat_all(own_setting, &mut owner, ports);
    let mut seat = Seat::<W, B>::new(owner);
    work_all(setting, own_setting, sessions, &mut seat, ports);
    confirm_all(own_setting, &mut seat.owner, ports);
    clear_all(ports);
    seat.owner
}
