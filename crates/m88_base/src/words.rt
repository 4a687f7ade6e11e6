//! The words of a program.
ghost use Rattle.std.specs.Prelude.{[], ◌≡◌, ◌∷◌, IfSome, None};
ghost use Rattle.m88_base.specs.Words.{texts};

/// The first word, and those behind it; None where there is none.
pub fn first_word<'a>(words: &'a [String]) -> Option<(&'a str, &'a [String])>
    ensures found { IfSome result (λ parts. texts words.now ≡ parts.0.now ∷ texts parts.1.now) }
    ensures none { result ≡ None → texts words.now ≡ [] }
{
    let (first, rest) = words.split_first()?;
    Some((first.as_str(), rest))
}
