// What is done with all ports before the board is made.
//
// What is done with each of some ports is `Each`: one length, and a relation at every place.
// `Halfway` of `proofs/Each` serves every loop over them.

ghost use Rattle.std.specs.Prelude.{◌≡◌, All, OnErr, OnOk, length};
ghost use Rattle.tb_io.specs.declared.answers.Bound.TheVariants as bound;
ghost use Rattle.tb_serve.specs.Each.{Each};
ghost use Rattle.tb_serve.specs.Places.{AreWithin, number_at};
ghost use Rattle.tb_serve.specs.Ports.{PortValue};
ghost use Rattle.tb_serve.specs.Stages.{CanBeBound, HasLines, HasPrepared, IsBoundAt, IsFresh};
ghost use Rattle.tb_serve.specs.Stages.{IsOneNotBound, IsSameButLines, IsUntouched};

use crate::closing::clear_all;
use crate::places::Places;
use crate::port::Port;
use crate::readiness::Readiness;
use std::alloc::Global;
use tb_base::Memory;
use tb_io::{Bound, LineReader, Listen};

// Gives each port a reader of lines. It takes memory.
fn give_all_lines<N: Listen>(alloc: Global, ports: &mut [Port<N>]) -> Result<(), Memory>
    ensures ok { OnOk result (Each (λ _. HasLines) ports.old ports.new) }
    ensures err { OnErr result (Each (λ _. IsSameButLines) ports.old ports.new) }
{
    for port in ports.iter_mut() {
        let lines = LineReader::new(alloc)?;
        port.give_lines(lines);
    }
    Ok(())
}

// Binds each listener to its number, until a bind fails.
fn bind_all<N: Listen>(places: Places, ports: &mut [Port<N>]) -> Bound
    requires can { All CanBeBound ports.old }
    requires fit { AreWithin places (length ports.old) }
    ensures ready { result ≡ bound.Ready → Each (IsBoundAt (number_at places)) ports.old ports.new }
    ensures failed { result ≡ bound.Failed → Each (IsUntouched (number_at places)) ports.old ports.new }
    ensures unbound { result ≡ bound.Failed → IsOneNotBound ports.old ports.new }
{
    let count = ports.len();
    for (i, port) in ports.iter_mut().enumerate() {
        let number = places.number(i, count);
        match port.bind(number) {
            Bound::Ready => {}
            Bound::Failed => return Bound::Failed,
        }
    }
    Bound::Ready
}

/// Makes ports ready for their parties: each gets a reader of lines, which takes memory, and then
/// each listener is bound to its number. Where either fails, no port has a reader of lines.
pub fn prepare<N: Listen>(alloc: Global, places: Places, ports: &mut [Port<N>]) -> Readiness
    requires fit { AreWithin places (length ports.old) }
    requires fresh { All IsFresh ports.old }
    ensures { HasPrepared (number_at places) ports.old ports.new result }
{
    match give_all_lines(alloc, ports) {
        Ok(()) => {}
        Err(_) => {
            clear_all(ports);
            return Readiness::NoMemory;
        }
    }
    match bind_all(places, ports) {
        Bound::Ready => Readiness::Ready,
        Bound::Failed => {
            clear_all(ports);
            Readiness::NotBound
        }
    }
}
