//! The laws of a script that is led. Each function does nothing, and its contract is a law.
ghost use Rattle.tb_follow_lanes.specs.Laws.{DescriptionsGoByTheSchema, ScriptsAreLed};

/// Where no line of the leader's is forged, the follower is led by the leader to the end, the
/// leader is told of no refused batch, and each reply to an analyst is over a release of the
/// leader's chain.
pub fn scripts_are_led()
    ensures { ScriptsAreLed }
{}

/// In two worlds with equal schemas a line of an analyst's that `describe` begins gets the same
/// reply, but where memory was refused.
pub fn descriptions_go_by_the_schema()
    ensures { DescriptionsGoByTheSchema }
{}
