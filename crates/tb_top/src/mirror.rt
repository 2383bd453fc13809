// Sessions as a mirror of a leader, served over a census.

ghost use Rattle.std.specs.Prelude.{◌≤◌, ◌+◌, All, vec_len};
ghost use Rattle.tb_serve.specs.Serves.{output};
ghost use Rattle.tb_serve.specs.Stages.{IsFresh};
ghost use Rattle.tb_top.specs.Loading.{IsFirst, census_value};
ghost use Rattle.tb_top.specs.MirrorOutputs.{IsMirrorAnswered};

use crate::asked::Census;
use crate::places::places_of;
use std::alloc::Global;
use std::sync::Wait;
use std::thread::Threads;
use tb_base::Status;
use tb_command::Service;
use tb_io::{Listen, Sink};
use tb_mirror::serve_mirror;
use tb_serve::Port;

/// Serves sessions over a census as a mirror: a leader's at the first port, and analysts' at the
/// others. It takes memory as `serve_mirror` does.
pub(crate) fn answer_mirror<R: Threads + Wait + Sync, O: Sink, N: Listen + Send>(
    rt: &R,
    alloc: Global,
    census: Census,
    service: &Service,
    out: &mut O,
    net: &mut Vec<Port<N>>,
) -> Status
    requires first { IsFirst census }
    requires ports { service.now.workers + 1 ≤ vec_len net.old }
    requires fresh { All IsFresh net.old.items }
    ensures { IsMirrorAnswered (census_value census) service.now net.old.items net.new.items result
        (output (O.taken out.old) (O.taken out.new) (O.faults out.old) (O.faults out.new)) }
{
    let Census { setup, release } = census;
    let (places, workers, sessions) = (places_of(service), service.workers(), service.sessions());
    serve_mirror(
        rt,
        alloc,
        &setup,
        release,
        places,
        workers,
        sessions,
        out,
        net.as_mut_slice(),
    )
}
