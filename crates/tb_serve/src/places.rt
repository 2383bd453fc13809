ghost use Rattle.std.specs.Prelude.{◌≡◌, ◌<◌};
ghost use Rattle.tb_serve.specs.Places as places;
ghost use Rattle.tb_serve.specs.Places.{AreWithin};

/// To which ports listeners are bound: each to one of its own, the first number and those after it;
/// or the first to that number, and all others to a door, which is the one after it.
#[derive(Clone, Copy)]
pub enum Places {
    Row(u16),
    Door(u16),
}

impl Places {
    // The number to which listener `i` of so many is bound.
    pub(crate) fn number(self, i: usize, count: usize) -> u16
        requires within { AreWithin self count }
        requires one { i < count }
        ensures { result ≡ places.number_at self i }
    {
        match self {
            Places::Row(first) => first + i as u16,
            Places::Door(first) => { if i == 0 { first } else { first + 1 } }
        }
    }
}
