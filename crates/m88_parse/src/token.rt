//! Tokens, by themselves and with what they say.
ghost use Rattle.std.specs.Prelude.{◌≡◌};
ghost use Rattle.m88_parse.specs.Inside.Places.{IsCutFrom};
ghost use Rattle.m88_parse.specs.Inside.Tokens.{between, piece_in, text_in, token_value};

/// What a token is: a name, a number (a character in single quotes is one), a text in double quotes, or
/// one of the marks.
#[derive(Clone, Copy, PartialEq, Eq, Debug)]
pub enum TokenKind {
    Name,
    Number,
    Text,
    Mark,
}

/// A token of a line: its bytes as they stand there, quotes included, and its place, line and column
/// from 1.
#[derive(Clone, Copy, Debug)]
pub struct Token<'a> {
    pub text: &'a [u8],
    pub line: u32,
    pub col: u32,
    pub kind: TokenKind,
}

/// What a token says: a name, a number, what stands between the quotes of a text, or a mark.
#[derive(Clone, Copy)]
pub(crate) enum What<'a> {
    Name(&'a [u8]),
    Number(u32),
    Text(&'a [u8]),
    Mark(u8),
}

/// What is kept of a token beside its place, from which a name and a text are had again.
#[derive(Clone, Copy)]
pub(crate) enum Kept {
    Name,
    Number(u32),
    Text,
    Mark(u8),
}

/// A token: its column, from 1, how many bytes it has, and what is kept to tell what it says. The bytes themselves are
/// read from its line.
#[derive(Clone, Copy)]
pub(crate) struct Lexeme {
    pub col: u32,
    pub len: u32,
    pub kept: Kept,
}

/// What stands between the first byte and the last one.
fn between(text: &[u8]) -> &[u8]
    ensures { result.now ≡ between text.now }
{
    match text {
        [_, inside @ .., _] => inside,
        _ => &[],
    }
}

impl Lexeme {
    /// The bytes of the token, from its line.
    // Called, it would cost more than the slice that it makes.
    #[inline(always)]
    pub fn text<'a>(&self, line: &'a [u8]) -> &'a [u8]
        requires { IsCutFrom line.now self.now }
        ensures { result.now ≡ text_in line.now self.now }
    {
        let at = self.col as usize - 1;
        &line[at..at + self.len as usize]
    }

    /// What the token says, from its line.
    // Asked several times for each token; called, it would put its answer in memory each time.
    #[inline(always)]
    pub fn what<'a>(&self, line: &'a [u8]) -> What<'a>
        requires { IsCutFrom line.now self.now }
        ensures { token_value result ≡ (piece_in line.now self.now).says }
    {
        match self.kept {
            Kept::Name => What::Name(self.text(line)),
            Kept::Number(n) => What::Number(n),
            Kept::Text => What::Text(between(self.text(line))),
            Kept::Mark(m) => What::Mark(m),
        }
    }
}
