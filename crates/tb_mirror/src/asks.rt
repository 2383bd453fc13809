// What a line at a mirror's first port asks for.

ghost use Rattle.std.specs.Prelude.{◌≡◌};
ghost use Rattle.tb_base.specs.Words.{words_of};
ghost use Rattle.tb_mirror.specs.MirrorAsks as asks;

use tb_base::first_word;
use tb_session::{Asks, Role, asks_of as asks_of_role};

/// What a line at a mirror's first port asks for: the number of the release; or what the custodian
/// may ask for too, which is `stats`, `clear` and `cache K`. Every other line is the leader's.
#[derive(Clone, Copy, Debug, PartialEq, Eq)]
pub enum MirrorAsks {
    Where,
    Custodian,
    Leader,
}

// Whether a line is just the word `where`.
fn is_where(line: &[u8]) -> bool
    ensures { result ≡ asks.is_where (words_of line.now) }
{
    let Some((word, rest)) = first_word(line) else {
        return false;
    };
    if first_word(rest).is_some() {
        return false;
    }
    word == b"where".as_slice()
}

/// What a line at a mirror's first port asks for.
pub fn asks_of(line: &[u8]) -> MirrorAsks
    ensures { result ≡ asks.asks_of line.now }
{
    if is_where(line) {
        return MirrorAsks::Where;
    }
    match asks_of_role(Role::Custodian, line) {
        Asks::Stats | Asks::Clear | Asks::Cache(_) => MirrorAsks::Custodian,
        Asks::Nothing
        | Asks::Description
        | Asks::Table
        | Asks::At(_)
        | Asks::Edit
        | Asks::Publish => MirrorAsks::Leader,
    }
}
