// Who gets a leader's messages.

ghost use Rattle.std.specs.Prelude.{◌≡◌, ℕ, Bool, if◌then◌else◌};
ghost use Rattle.tb_follow.specs.Deliveries.{given};
ghost use Rattle.tb_follow.specs.Followers.{FollowerValue, restarted};
ghost use Rattle.tb_follow.specs.Messages.{MessageFits};

use tb_follow::{Delivered, Follower, Message};

/// Who gets a leader's messages, in a setting `C`.
///
/// `value` is the chain as far as it was followed, with the messages that wait, and `restarts` says
/// whether it can be led back to release 0. `IsReady` is the condition under which messages are
/// delivered, which every call keeps.
pub trait Receiver<C> {
    ghost value: { Self → FollowerValue };

    ghost restarts: { Bool };

    ghost IsReady: { C → Self → Type 0 };

    /// Delivers a message.
    fn deliver(&mut self, setting: &C, message: Message) -> Delivered
        requires ready { IsReady setting.now self.old }
        requires fits { MessageFits (value self.old).chain.shape message }
        ensures ready { IsReady setting.now self.new }
        ensures given { (room : ℕ) × (given room (value self.old) message
            ≡ record { follower = value self.new; answer = result }) };

    /// Goes back to release 0, with nothing that waits, where it can; else all stays. Whether it
    /// can.
    fn restart(&mut self, setting: &C) -> bool
        requires { IsReady setting.now self.old }
        ensures ready { IsReady setting.now self.new }
        ensures can { result ≡ restarts }
        ensures value { value self.new
            ≡ (if restarts then restarted (value self.old) else value self.old) };
}

impl Receiver<()> for Follower {
    ghost use Rattle.std.specs.Prelude.{true};

    ghost value = { λ follower. follower };

    ghost restarts = { true };

    ghost IsReady = { λ c follower. Unit {0} };

    fn deliver(&mut self, _setting: &(), message: Message) -> Delivered {
        Follower::deliver(self, message)
    }

    fn restart(&mut self, _setting: &()) -> bool {
        Follower::restart(self);
        true
    }
}
