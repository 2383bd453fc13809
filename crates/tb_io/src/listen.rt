ghost use Rattle.std.specs.Prelude.{◌≡◌, true};
ghost use Rattle.tb_io.specs.Listeners.{ListenerValue, CanBind, CanAccept, connection};
ghost use Rattle.tb_io.specs.Listeners.{HasBound, HasAccepted, given_back};

use crate::answers::{Accepted, Bound};
use crate::sink::Sink;
use crate::source::Source;

/// What gives sessions, one at a time.
///
/// It is bound to a port once, and then accepts. A session is out from its accept until it is given
/// back, and one at most is out. A call fails only where the count of faults rose in that call.
/// `seen` is that count, the port and whether a session is out, and the listener's meaning, where
/// it tells it: the sessions to come, and those that came back.
pub trait Listen {
    type Reader: Source + Send;

    type Writer: Sink + Send;

    ghost seen: { Self → ListenerValue };

    /// Binds the listener to a port.
    fn bind(&mut self, port: u16) -> Bound
        requires { CanBind (seen self.old) }
        ensures { HasBound (seen self.old) (seen self.new) port result };

    /// The next session, End only where none is to come.
    fn accept(&mut self) -> Accepted<Self::Reader, Self::Writer>
        requires { CanAccept (seen self.old) }
        ensures { HasAccepted (λ r w. connection (Self.Reader.left r) (Self.Writer.taken w)
            (Self.Reader.faults r) (Self.Writer.faults w)) (seen self.old) (seen self.new)
            result };

    /// Takes back the session that is out. It takes no memory.
    fn give_back(&mut self, reader: Self::Reader, writer: Self::Writer)
        requires { (seen self.old).is_out ≡ true }
        ensures { seen self.new ≡ given_back (seen self.old) (connection (Self.Reader.left reader)
            (Self.Writer.taken writer) (Self.Reader.faults reader)
            (Self.Writer.faults writer)) };
}
