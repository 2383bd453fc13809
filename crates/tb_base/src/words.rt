// The words of a line, taken from its front.

ghost use Rattle.std.specs.Prelude.{◌≡◌, ◌∷◌, ◌<◌, [], IfSome, MatchOption, length};
ghost use Rattle.tb_base.specs.Words.{words_of};

use crate::bytes::{blank_at, skip_blanks};

/// The first word of a text, and what follows it. Words are what blanks separate.
pub fn first_word(text: &[u8]) -> Option<(&[u8], &[u8])>
    ensures word { MatchOption result (words_of text.now ≡ [])
        (λ x. words_of text.now ≡ x.0.now ∷ words_of x.1.now) }
    ensures shorter { IfSome result (λ x. length x.1.now < length text.now) }
{
    let rest = skip_blanks(text);
    if rest.is_empty() {
        return None;
    }
    Some(rest.split_at(blank_at(rest)))
}
