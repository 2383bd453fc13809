ghost use Rattle.std.specs.Prelude.{◌≡◌, ◌≤◌, ℕ, IfOk, length};
ghost use Rattle.tb_base.specs.Records.{AllFit};
ghost use Rattle.tb_follow.specs.Answers.{Tells};
ghost use Rattle.tb_follow.specs.Chains.{release_at};
ghost use Rattle.tb_follow.specs.Deliveries.{given};
ghost use Rattle.tb_follow.specs.Followers.{at_base, restarted};
ghost use Rattle.tb_follow.specs.Messages.{MessageFits};
ghost use Rattle.tb_follow.specs.declared.limits.TheConstants.{MOST_AHEAD};

use crate::delivery::deliver;
use crate::message::{Delivered, Message};
use crate::own_chain::OwnChain;
use crate::window::Window;
use std::alloc::Global;
use std::marker::Model;
use tb_base::{Memory, Shape};
use tb_release::Release;

/// Who follows the leader's chain: release 0, the release that was reached, and a window, the
/// messages that wait for those before them.
///
/// What was reached is a release of the leader's chain, whatever messages were lost, repeated or
/// came in another order. After want of memory it is as before.
#[derive(Drop)]
pub struct Follower {
    chain: OwnChain,
    window: Window,
}

impl Model for Follower {
    ghost use Rattle.tb_follow.specs.Followers.{FollowerValue, IsFollower, follower};
    ghost use Rattle.tb_follow.specs.Followers.{follower_code};

    ghost Value = { FollowerValue };

    ghost coded = { follower_code };

    ghost view = { λ f. follower f.chain f.window };

    ghost invariant = { λ f. IsFollower (follower f.chain f.window) };
}

impl Follower {
    /// A follower at release 0, with nothing in its window. It takes a little memory.
    pub fn new(alloc: Global, shape: &Shape, base: Release) -> Result<Follower, Memory>
        requires first { base.number ≡ 0 }
        requires fit { AllFit shape.now base.records }
        ensures { IfOk result (λ follower. follower ≡ at_base shape.now base) }
    {
        let chain = OwnChain::new(alloc, shape, base)?;
        Ok(Follower {
            chain,
            window: Window::new(alloc),
        })
    }

    /// The release that it has reached, whose records fit its shape.
    pub fn release(&self) -> &Release
        ensures release { result.now ≡ release_at self.now.chain }
        ensures fit { AllFit self.now.chain.shape result.now.records }
    {
        self.chain.release()
    }

    /// How many messages wait, at most `MOST_AHEAD`.
    pub fn waiting(&self) -> usize
        ensures count { result ≡ length self.now.window }
        ensures few { result ≤ MOST_AHEAD }
    {
        self.window.len()
    }

    /// Goes back to release 0, with nothing in its window. It takes no memory.
    pub fn restart(&mut self)
        ensures { self.new ≡ restarted self.old }
    {
        self.chain.restart();
        self.window.clear();
    }

    /// Delivers a message, any that the leader ever sent. That of the next number is applied, and
    /// one of a later number, up to `MOST_AHEAD` ahead, waits in the window; then the window's
    /// messages of the next numbers are applied, one after another. One whose edits are refused is
    /// dropped. It takes memory for the next releases, and for a message that waits; where that is
    /// refused for the message that was delivered, the follower is as before.
    pub fn deliver(&mut self, message: Message) -> Delivered
        requires { MessageFits self.old.chain.shape message }
        // What it leaves and returns, for as much memory as there was.
        ensures given { (room : ℕ) × (given room self.old message
            ≡ record { follower = self.new; answer = result }) }
        // When each answer comes.
        ensures tells { Tells self.old message result self.new }
    {
        deliver(&(), &mut self.chain, &mut self.window, message)
    }
}
