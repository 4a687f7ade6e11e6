//! A text cut at the first byte of a value.
ghost use Rattle.std.specs.Prelude.{◌≡◌, ◌<◌, ◌==◌, ◌++◌, ◌∷◌, None, Some, length, not, IfNone, IfSome, MatchOption};
ghost use Rattle.std.specs.List.{prefix_len};
ghost use Rattle.m88_base.specs.Cut.{Lacks, split_at_byte};

use memchr::memchr;

/// How many bytes stand before the first of a value; all where there is none.
pub(crate) fn len_before(at: u8, text: &[u8]) -> usize
    ensures { result ≡ prefix_len (λ b. not (b == at)) text.now }
{
    memchr(at, text).unwrap_or(text.len())
}

/// What stands before the first byte of a value, and what stands behind it; None where no byte has the value.
pub fn split_at_byte(at: u8, text: &[u8]) -> Option<(&[u8], &[u8])>
    ensures value { MatchOption result (split_at_byte at text.now ≡ None)
        (λ p. split_at_byte at text.now ≡ Some (p.0.now, p.1.now)) }
    ensures found { IfSome result (λ p. text.now ≡ p.0.now ++ at ∷ p.1.now) }
    ensures before { IfSome result (λ p. Lacks at p.0.now) }
    ensures none { IfNone result (Lacks at text.now) }
    ensures shorter { IfSome result (λ p. length p.1.now < length text.now) }
{
    let (before, behind) = text.split_at(len_before(at, text));
    match behind {
        [] => None,
        [_, behind @ ..] => Some((before, behind)),
    }
}
