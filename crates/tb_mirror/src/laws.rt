//! Laws of a mirror and its leader. Each function does nothing, and its contract is a law.

ghost use Rattle.tb_mirror.specs.Laws.{AnalystsSeeTheLeadersChain, MirrorsAreLed};

/// Where the leader's batches can lead on the mirror's release 0, and each message that is ended is
/// the leader's own, the mirror's chain is a beginning of the leader's after each line, and no line
/// is answered by `refused batch`.
pub fn mirrors_are_led()
    ensures { MirrorsAreLed }
{}

/// What an analyst of such a mirror was answered is at releases of the leader's chain.
pub fn analysts_see_the_leaders_chain()
    ensures { AnalystsSeeTheLeadersChain }
{}
