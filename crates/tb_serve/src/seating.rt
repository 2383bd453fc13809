// The parties that are given to ports.

ghost use Rattle.std.specs.Prelude.{◌≡◌};
ghost use Rattle.tb_serve.specs.Each.{Each};
ghost use Rattle.tb_serve.specs.Stages.{IsSeated};

use crate::port::Port;
use tb_board::Named;
use tb_io::Listen;
use tb_session::Owner;

// Gives port i an analyst who has seen what the owner's custodian wrote, except the first port,
// which is the owner's.
#[tactic(auto, using(crate::proofs::Seats::not_seated, crate::proofs::Seats::seated_later))]
fn seat_one<C, B: Named, W: Owner<C, B>, N: Listen>(
    setting: &C,
    owner: &mut W,
    i: usize,
    port: &mut Port<N>,
)
    requires { W.IsReady setting.now owner.old }
    ensures ready { W.IsReady setting.now owner.new }
    ensures same { (W.writer owner.new ≡ W.writer owner.old)
        × (W.state owner.new ≡ W.state owner.old) }
    ensures seated { IsSeated (W.writer owner.old) i port.old port.new }
{
    if i > 0 {
        port.seat(owner.analyst(setting));
    }
}

// Gives each port but the first an analyst who has seen what the owner's custodian wrote.
pub(crate) fn seat_all<C, B: Named, W: Owner<C, B>, N: Listen>(
    setting: &C,
    owner: &mut W,
    ports: &mut [Port<N>],
)
    requires { W.IsReady setting.now owner.old }
    ensures ready { W.IsReady setting.now owner.new }
    ensures same { (W.writer owner.new ≡ W.writer owner.old)
        × (W.state owner.new ≡ W.state owner.old) }
    ensures seated { Each (IsSeated (W.writer owner.old)) ports.old ports.new }
{
    for (i, port) in ports.iter_mut().enumerate() {
        seat_one(setting, owner, i, port);
    }
}
