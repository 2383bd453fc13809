// What becomes of a message that is delivered, whatever the chain is to which it is applied.

ghost use Rattle.std.specs.Prelude.{◌≡◌, ◌≤◌, ◌+◌, ℕ, true};
ghost use Rattle.tb_follow.specs.Answers.{Tells};
ghost use Rattle.tb_follow.specs.Chains.{ChainValue, number_at};
ghost use Rattle.tb_follow.specs.Deliveries.{answer_by as answer_of, caught_up, given};
ghost use Rattle.tb_follow.specs.Deliveries.{is_later as is_ahead, next_number};
ghost use Rattle.tb_follow.specs.Followers.{IsFollower, follower};
ghost use Rattle.tb_follow.specs.Messages.{MessageFits};
ghost use Rattle.tb_follow.specs.Steps.{GoesOn, TakesIn, refusal_of};
ghost use Rattle.tb_release.specs.declared.limits.TheConstants.{MOST_RELEASES};

use crate::chain::Chain;
use crate::limits::MOST_AHEAD;
use crate::message::{Delivered, Message};
use crate::window::Window;
use tb_base::Memory;
use tb_release::EditFault;

// What is returned where memory isn't refused, by the numbers of a message and of the releases
// before and after it.
fn answer_by(number: u32, before: u32, after: u32) -> Delivered
    requires { before ≤ MOST_RELEASES }
    ensures { result ≡ answer_of number before after }
{
    if before < after {
        return Delivered::Applied(after);
    }
    if number <= before {
        return Delivered::Old(before);
    }
    if before + MOST_AHEAD < number {
        return Delivered::Far(before);
    }
    Delivered::Kept(before)
}

// What is returned where a message's edits make no release.
fn refusal(fault: EditFault) -> Delivered
    ensures { result ≡ refusal_of fault }
{
    match fault {
        EditFault::Refused { kind, edit } => Delivered::Refused { edit, kind },
        EditFault::Memory => Delivered::Memory,
    }
}

// Whether a number is beyond the next one, and not too far ahead.
fn is_later(before: u32, number: u32) -> bool
    requires { before ≤ MOST_RELEASES }
    ensures { result ≡ is_ahead before number }
{
    if number <= before + 1 {
        return false;
    }
    number <= before + MOST_AHEAD
}

// The window's message of the next number is applied, or it is dropped where it is refused.
// Whether there may be another.
fn apply_next<C, A: Chain<C>>(setting: &C, chain: &mut A, window: &mut Window) -> bool
    requires ready { A.IsReady setting.now chain.old }
    requires own { IsFollower (follower (A.value chain.old) window.old) }
    ensures ready { A.IsReady setting.now chain.new }
    ensures goes_on { GoesOn (follower (A.value chain.old) window.old) result
        (follower (A.value chain.new) window.new) }
{
    let number = chain.number(setting) + 1;
    let Some(message) = window.find(number) else {
        return false;
    };
    match chain.apply(setting, &message.edits) {
        Ok(()) => {
            window.remove(number);
            true
        }
        Err(EditFault::Refused { kind: _, edit: _ }) => {
            window.remove(number);
            false
        }
        Err(EditFault::Memory) => false,
    }
}

// The window's messages of the next numbers are applied, one after another.
fn catch_up<C, A: Chain<C>>(setting: &C, chain: &mut A, window: &mut Window)
    requires ready { A.IsReady setting.now chain.old }
    requires own { IsFollower (follower (A.value chain.old) window.old) }
    ensures ready { A.IsReady setting.now chain.new }
    ensures caught_up { (room : ℕ) × (follower (A.value chain.new) window.new
        ≡ caught_up room (follower (A.value chain.old) window.old)) }
{
    while apply_next(setting, chain, window) {}
}

// The message of the next number is applied, unless its edits are refused.
fn take_next<C, A: Chain<C>>(
    setting: &C,
    chain: &mut A,
    window: &mut Window,
    message: &Message,
) -> Result<(), Delivered>
    requires ready { A.IsReady setting.now chain.old }
    requires own { IsFollower (follower (A.value chain.old) window.old) }
    requires fits { MessageFits (A.value chain.old).shape message.now }
    requires next { message.now.number ≡ number_at (A.value chain.old) + 1 }
    ensures ready { A.IsReady setting.now chain.new }
    ensures own { IsFollower (follower (A.value chain.new) window.new) }
    ensures takes { TakesIn (follower (A.value chain.old) window.old) message.now result
        (follower (A.value chain.new) window.new) }
{
    match chain.apply(setting, &message.edits) {
        Ok(()) => {
            window.remove(message.number);
            Ok(())
        }
        Err(fault) => Err(refusal(fault)),
    }
}

// A message of a later number waits, unless one of that number does already.
fn take_later(window: &mut Window, message: Message) -> Result<(), Delivered>
    ensures own { (chain : ChainValue) → MessageFits chain.shape message
        → is_ahead (number_at chain) message.number ≡ true → IsFollower (follower chain window.old)
        → IsFollower (follower chain window.new) }
    ensures takes { (chain : ChainValue) → is_ahead (number_at chain) message.number ≡ true
        → TakesIn (follower chain window.old) message result (follower chain window.new) }
{
    if window.has(message.number) {
        return Ok(());
    }
    match window.put(message) {
        Ok(()) => Ok(()),
        Err(Memory) => Err(Delivered::Memory),
    }
}

// A message is taken in: that of the next number is applied, and one of a later number waits.
fn take_in<C, A: Chain<C>>(
    setting: &C,
    chain: &mut A,
    window: &mut Window,
    message: Message,
) -> Result<(), Delivered>
    requires ready { A.IsReady setting.now chain.old }
    requires own { IsFollower (follower (A.value chain.old) window.old) }
    requires fits { MessageFits (A.value chain.old).shape message }
    ensures ready { A.IsReady setting.now chain.new }
    ensures own { IsFollower (follower (A.value chain.new) window.new) }
    ensures takes { TakesIn (follower (A.value chain.old) window.old) message result
        (follower (A.value chain.new) window.new) }
{
    let before = chain.number(setting);
    if message.number == before + 1 {
        return take_next(setting, chain, window, &message);
    }
    if is_later(before, message.number) {
        return take_later(window, message);
    }
    Ok(())
}

/// Delivers a message, any that the leader ever sent, to a chain with its window. That of the next
/// number is applied, and one of a later number, up to `MOST_AHEAD` ahead, waits in the window;
/// then the window's messages of the next numbers are applied, one after another. One whose edits
/// are refused is dropped. It takes memory for the next releases, and for a message that waits;
/// where that is refused for the message that was delivered, all is as before.
pub fn deliver<C, A: Chain<C>>(
    setting: &C,
    chain: &mut A,
    window: &mut Window,
    message: Message,
) -> Delivered
    requires ready { A.IsReady setting.now chain.old }
    requires own { IsFollower (follower (A.value chain.old) window.old) }
    requires fits { MessageFits (A.value chain.old).shape message }
    ensures ready { A.IsReady setting.now chain.new }
    ensures own { IsFollower (follower (A.value chain.new) window.new) }
    // What it leaves and returns, for as much memory as there was.
    ensures given { (room : ℕ) × (given room (follower (A.value chain.old) window.old) message
        ≡ record { follower = follower (A.value chain.new) window.new; answer = result }) }
    // When each answer comes.
    ensures tells { Tells (follower (A.value chain.old) window.old) message result
        (follower (A.value chain.new) window.new) }
{
    let before = chain.number(setting);
    let number = message.number;
    if let Err(answer) = take_in(setting, chain, window, message) {
        return answer;
    }
    catch_up(setting, chain, window);
    answer_by(number, before, chain.number(setting))
}
