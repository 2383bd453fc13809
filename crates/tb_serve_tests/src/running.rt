// Whole calls of the server over the small setup.

ghost use Rattle.std.specs.Prelude.{◌≡◌, ◌<◌, ◌+◌, All, IfOk, vec_len};
ghost use Rattle.tb_base.specs.Records.{AllFit};
ghost use Rattle.tb_model.specs.Schemas.{shape_of};
ghost use Rattle.tb_serve.specs.Places.{AreWithin};
ghost use Rattle.tb_serve.specs.Stages.{IsFresh};

use super::compared::Compared;
use std::alloc::Global;
use std::sync::Wait;
use std::thread::Threads;
use tb_base::{Memory, Status};
use tb_comparison::is_status;
use tb_io::Listen;
use tb_release::Release;
use tb_serve::{Places, Port, serve};
use tb_small_values::{release, setup};
use tb_text::Setup;

// Release 0 of four persons.
fn first(alloc: Global, setup: &Setup) -> Result<Release, Memory>
    ensures number { IfOk result (λ r. r.number ≡ 0) }
    ensures fit { IfOk result (λ r. AllFit (shape_of setup.now.schema) r.records) }
{
    release(alloc, &setup.schema)
}

// What is served: up to so many sessions at each of the ports, which are bound so; and the text
// that is to be written.
#[derive(Drop)]
struct Service<'a> {
    places: Places,
    workers: u32,
    sessions: u32,
    text: &'a [u8],
}

// Serves a setup from its release 0 on, and returns whether that is done and writes just the text.
fn serves_first<N: Listen + Send, R: Threads + Wait + Sync + Eprint>(
    rt: &R,
    alloc: Global,
    setup: &Setup,
    service: Service<'_>,
    net: &mut Vec<Port<N>>,
) -> bool
    requires few { service.workers < 65536 }
    requires within { AreWithin service.places (service.workers + 1) }
    requires ports { service.workers < vec_len net.old }
    requires fresh { All IsFresh net.old.items }
{
    let Service {
        places,
        workers,
        sessions,
        text,
    } = service;
    let mut out = Compared::with(text);
    match first(alloc, setup) {
        Ok(base) => {
            let ports = net.as_mut_slice();
            let status = serve(
                rt, alloc, setup, base, places, workers, sessions, &mut out, ports,
            );
            let same = is_status(rt, status.number(), Status::Done.number());
            out.check(rt) && same
        }
        Err(_) => false,
    }
}

/// Serves up to so many sessions at each of the ports, which are bound so, and returns whether the
/// call is done and writes just this text.
pub fn serves<N: Listen + Send, R: Threads + Wait + Sync + Eprint>(
    rt: &R,
    alloc: Global,
    places: Places,
    workers: u32,
    sessions: u32,
    net: &mut Vec<Port<N>>,
    text: &[u8],
) -> bool
    requires few { workers < 65536 }
    requires within { AreWithin places (workers + 1) }
    requires ports { workers < vec_len net.old }
    requires fresh { All IsFresh net.old.items }
{
    let service = Service {
        places,
        workers,
        sessions,
        text,
    };
    match setup(alloc) {
        Ok(setup) => serves_first(rt, alloc, &setup, service, net),
        Err(_) => false,
    }
}
