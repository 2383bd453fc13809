//! The law of a leader's lane. The function does nothing, and its contract is the law.
ghost use Rattle.tb_leader.specs.Laws.{LanesLead};

/// After each line that isn't forged the follower is still led by the leader: at a release of its
/// chain, with its own messages in the window. No batch is refused.
pub fn lanes_lead()
    ensures { LanesLead }
{}
