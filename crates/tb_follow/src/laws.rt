//! Laws of a leader and its follower. Each function does nothing, and its contract is a law.
ghost use Rattle.tb_follow.specs.Laws.{FewWait, FollowersTrail, MessagesLead};

/// Whatever messages are lost, repeated or come in another order, whenever memory is refused, and
/// however often the follower restarts: it is at a release of the leader's chain, its window has
/// the leader's own edits under their numbers, and no message was refused.
pub fn followers_trail()
    ensures { FollowersTrail }
{}

/// A follower that is led by a leader's messages is led after the next one too, which isn't
/// refused.
pub fn messages_lead()
    ensures { MessagesLead }
{}

/// At most `MOST_AHEAD` messages wait.
pub fn few_wait()
    ensures { FewWait }
{}
