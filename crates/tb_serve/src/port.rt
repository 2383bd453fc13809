ghost use Rattle.std.specs.Prelude.{◌≡◌, None, Some, false, true};
ghost use Rattle.tb_io.specs.Listeners.{CanBind, HasBound};
ghost use Rattle.tb_serve.specs.Ports.{fresh_port};

use std::marker::Model;
use tb_io::{Bound, LineReader, Listen};
use tb_session::Party;

/// A listener, with what its worker needs, a party and a reader of lines, and what its worker
/// leaves: how many sessions it served, and whether its accept failed.
#[derive(Drop)]
pub struct Port<N: Listen> {
    pub listener: N,
    pub served: u32,
    pub failed: bool,
    pub party: Option<Party>,
    pub lines: Option<LineReader>,
}

impl<N: Listen> Model for Port<N> {
    ghost use Rattle.std.specs.Prelude.{is_some};
    ghost use Rattle.tb_serve.specs.PortCodes.{port_code};
    ghost use Rattle.tb_serve.specs.Ports.{PortValue};

    ghost Value = { PortValue };

    ghost coded = { port_code };

    ghost view = { λ p. record {
      listener = N.seen p.listener;
      served = p.served;
      failed = p.failed;
      party = p.party;
      has_lines = is_some p.lines;
    } };
}

impl<N: Listen> Port<N> {
    /// A port of this listener, which has served no session and has no party and no reader of
    /// lines.
    pub fn of(listener: N) -> Port<N>
        ensures { result ≡ fresh_port (N.seen listener) }
    {
        Port {
            listener,
            served: 0,
            failed: false,
            party: None,
            lines: None,
        }
    }

    // Gives it a reader of lines.
    pub(crate) fn give_lines(&mut self, lines: LineReader)
        ensures { self.new ≡ record self.old { has_lines = true } }
    {
        self.lines = Some(lines);
    }

    // Binds its listener.
    pub(crate) fn bind(&mut self, port: u16) -> Bound
        requires { CanBind self.old.listener }
        ensures bound { HasBound self.old.listener self.new.listener port result }
        ensures rest { self.new ≡ record self.old { listener = self.new.listener } }
    {
        self.listener.bind(port)
    }

    // Gives it a party.
    pub(crate) fn seat(&mut self, party: Party)
        ensures { self.new ≡ record self.old { party = Some party } }
    {
        self.party = Some(party);
    }

    // Takes its party.
    pub(crate) fn leave(&mut self) -> Option<Party>
        ensures party { result ≡ self.old.party }
        ensures rest { self.new ≡ record self.old { party = None } }
    {
        self.party.take()
    }

    // Leaves it without a party and a reader of lines.
    pub(crate) fn clear(&mut self)
        ensures { self.new ≡ record self.old { party = None; has_lines = false } }
    {
        self.party = None;
        self.lines = None;
    }

    // How many sessions it served.
    pub(crate) fn served(&self) -> u32
        ensures { result ≡ self.now.served }
    {
        self.served
    }

    // Whether its accept failed.
    pub(crate) fn has_failed(&self) -> bool
        ensures { result ≡ self.now.failed }
    {
        self.failed
    }
}
