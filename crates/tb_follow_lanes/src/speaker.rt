/// Who asks a line of a script that is led: the leader, or an analyst.
#[derive(Clone, Copy, Debug, PartialEq, Eq)]
pub enum Speaker {
    Leader,
    Analyst,
}
