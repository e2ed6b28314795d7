//! Cutting a text at its first newline, and a line at its first space.

ghost use Rattle.std.specs.Prelude.{◌≡◌, ℕ, List, ◌∷◌, ◌++◌, IfSome, MatchOption};
ghost use Rattle.std.specs.Str.{IsAscii};
ghost use Rattle.sig_core.specs.VerdictTable.{newline, space};
ghost use Rattle.ca_register.specs.Lines.{IsLineOfWords, IsWord};

/// The octets as a text. None only if one isn't ASCII.
pub(crate) fn text_of(octets: &[u8]) -> Option<&str>
    ensures { MatchOption result (IsAscii octets.now → ⊥) (λ text. text.now ≡ octets.now) }
{
    str::from_utf8(octets).ok()
}

/// The first line of a text, and what follows its newline.
pub(crate) fn cut_line(text: &str) -> Option<(&str, &str)>
    ensures cut { IfSome result (λ cut. text.now ≡ cut.0.now ++ newline ∷ cut.1.now) }
    ensures only { (line rest : List ℕ) → IsLineOfWords line → text.now ≡ line ++ newline ∷ rest
        → MatchOption result ⊥ (λ cut. (cut.0.now ≡ line) × (cut.1.now ≡ rest)) }
{
    text.split_once('\n')
}

/// The first word of a line, and what follows the space after it.
pub(crate) fn cut_word(line: &str) -> Option<(&str, &str)>
    ensures cut { IfSome result (λ cut. line.now ≡ cut.0.now ++ space ∷ cut.1.now) }
    ensures only { (word rest : List ℕ) → IsWord word → line.now ≡ word ++ space ∷ rest
        → MatchOption result ⊥ (λ cut. (cut.0.now ≡ word) × (cut.1.now ≡ rest)) }
{
    line.split_once(' ')
}
