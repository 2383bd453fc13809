// What is done with all ports once their workers ended.

ghost use Rattle.std.specs.Prelude.{◌≡◌, All, IfSome};
ghost use Rattle.tb_serve.specs.Each.{Each};
ghost use Rattle.tb_serve.specs.Stages.{HasOwnParty, IsCleared, IsConfirmed, IsOfFront};
ghost use Rattle.tb_session.specs.Parties.{IsBehind};

use crate::port::Port;
use tb_board::Named;
use tb_io::Listen;
use tb_session::{Owner, Party};

// Has the owner's custodian confirm a port's party, and lets it go.
fn confirm_one<C, B: Named, W: Owner<C, B>>(setting: &C, owner: &mut W, party: Option<Party>)
    requires ready { W.IsReady setting.now owner.old }
    requires own { IfSome party (IsOfFront B.name) }
    ensures ready { W.IsReady setting.now owner.new }
    ensures same { (W.writer owner.new ≡ W.writer owner.old)
        × (W.state owner.new ≡ W.state owner.old) }
    ensures behind { IfSome party (IsBehind (W.writer owner.old)) }
{
    if let Some(mut party) = party {
        owner.confirm(setting, &mut party);
    }
}

// Takes all parties, and has the owner's custodian confirm all passes.
pub(crate) fn confirm_all<C, B: Named, W: Owner<C, B>, N: Listen>(
    setting: &C,
    owner: &mut W,
    ports: &mut [Port<N>],
)
    requires ready { W.IsReady setting.now owner.old }
    requires own { All (HasOwnParty B.name) ports.old }
    ensures ready { W.IsReady setting.now owner.new }
    ensures same { (W.writer owner.new ≡ W.writer owner.old)
        × (W.state owner.new ≡ W.state owner.old) }
    ensures confirmed { Each (λ _. IsConfirmed (W.writer owner.old)) ports.old ports.new }
{
    for port in ports.iter_mut() {
        let party = port.leave();
        confirm_one(setting, owner, party);
    }
}

// Leaves all ports without a party and a reader of lines.
pub(crate) fn clear_all<N: Listen>(ports: &mut [Port<N>])
    ensures { Each (λ _. IsCleared) ports.old ports.new }
{
    for port in ports.iter_mut() {
        port.clear();
    }
}
