// Where the listeners of a service are bound.

ghost use Rattle.std.specs.Prelude.{◌≡◌, ◌+◌, ◌<◌};
ghost use Rattle.tb_serve.specs.Places.{AreWithin};
ghost use Rattle.tb_top.specs.Services as services;

use tb_command::{Layout, Service};
use tb_serve::Places;

/// To which numbers the listeners of a service are bound.
pub(crate) fn places_of(service: &Service) -> Places
    ensures places { result ≡ services.places_of service.now }
    ensures within { AreWithin result (service.now.workers + 1) }
    ensures few { service.now.workers < 65536 }
{
    let port = service.port();
    match service.layout() {
        Layout::Row => Places::Row(port),
        Layout::Door => Places::Door(port),
    }
}
