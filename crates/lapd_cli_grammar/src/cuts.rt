//! The words of a line whose form begins with WORDS..

ghost use Rattle.std.specs.Prelude.{◌≡◌, ◌∷◌, ◌++◌, [], IfNone, IfSome};
ghost use Rattle.lapd_cli_script.specs.Line.{HasNoSpace, words_of};
ghost use Rattle.lapd_cli_grammar.specs.Values.{text_and_last as as_text_and_last};

use lapd_cli_script::Words;
use memchr::memrchr;

/// The words up to the last one, with the spaces between them, and the last one. `None` if there
/// are not two words.
pub(crate) fn text_and_last<'l>(words: &Words<'l>) -> Option<(&'l [u8], &'l [u8])>
    ensures none { IfNone result (as_text_and_last words.now ≡ words.now) }
    ensures parts { IfSome result (λ parts.
        as_text_and_last words.now ≡ parts.0.now ∷ parts.1.now ∷ []) }
    ensures last { IfSome result (λ parts. words_of parts.1.now ≡ parts.1.now ∷ []) }
{
    cut_at_last_word(words.rest()?)
}

/// The same of a line.
#[tactic(auto, using(crate::proofs::TextWords::text_cut, crate::proofs::TextWords::text_whole, lapd_cli_script::proofs::WordsOf::one_word))]
fn cut_at_last_word(line: &[u8]) -> Option<(&[u8], &[u8])>
    ensures none { IfNone result (as_text_and_last (words_of line.now) ≡ words_of line.now) }
    ensures parts { IfSome result (λ parts.
        as_text_and_last (words_of line.now) ≡ parts.0.now ∷ parts.1.now ∷ []) }
    ensures last { IfSome result (λ parts. words_of parts.1.now ≡ parts.1.now ∷ []) }
{
    cut_at_last_space(line)
}

/// The octets before the last space, and those after it.
fn cut_at_last_space(octets: &[u8]) -> Option<(&[u8], &[u8])>
    ensures none { IfNone result (HasNoSpace octets.now) }
    ensures parts { IfSome result (λ parts. HasNoSpace parts.1.now
        × (octets.now ≡ parts.0.now ++ 32 ∷ parts.1.now)) }
{
    let end = memrchr(b' ', octets)?;
    Some((&octets[..end], &octets[end + 1..]))
}
