ghost use Rattle.std.specs.Prelude.{◌≡◌, None};

use tb_follow::Message;

/// The leader's lane: who gets its messages, and the message that is open, if there is one: it was
/// begun, and isn't ended yet. A message of which an edit was refused, or the memory for one, is
/// given up.
#[derive(Drop)]
pub struct LeaderLane<F> {
    pub follower: F,
    pub open: Option<Message>,
}

impl<F> LeaderLane<F> {
    /// A lane without an open message.
    pub fn new(follower: F) -> LeaderLane<F>
        ensures follower { result.follower ≡ follower }
        ensures open { result.open ≡ None }
    {
        LeaderLane {
            follower,
            open: None,
        }
    }
}
