//! The tokens of a line that are left, as a statement is read from them.
ghost use Rattle.std.specs.Prelude.{◌≡◌, length, map, ◌-◌};
ghost use Rattle.std.specs.List.{All};
ghost use Rattle.m88_parse.specs.Fault.{Gives};
ghost use Rattle.m88_parse.specs.Inside.Grammar.{read, ends};
ghost use Rattle.m88_parse.specs.Inside.State.{ReaderState, first, second, place, past, fault, is_next_mark};
ghost use Rattle.m88_parse.specs.Inside.Slots.{mark_at, line_end_at};
ghost use Rattle.m88_parse.specs.Inside.Places.{IsCutFrom};
ghost use Rattle.m88_parse.specs.Inside.Tokens.{piece_in, token_value_in};

use crate::fault::{ParseFault, ParseKind};
use crate::token::{Lexeme, What};
use crate::unit::Body;
use std::marker::Model;

/// Reads a statement from the tokens of its line: the bytes of the line, the tokens that are left, the
/// line's number, and the column just after the last token.
#[derive(Drop)]
pub(crate) struct Parser<'a> {
    bytes: &'a [u8],
    rest: &'a [Lexeme],
    line: u32,
    end_col: u32,
}

impl<'a> Model for Parser<'a> {
    ghost Value = { ReaderState };

    ghost view = { λ p. record
        { line = p.line; end_col = p.end_col; rest = map (piece_in p.bytes.now) p.rest.now } };

    ghost invariant = { λ p. All (IsCutFrom p.bytes.now) p.rest.now };
}

impl<'a> Parser<'a> {
    /// At the first of the tokens of a line with these bytes; `end_col` is the column just after the last one.
    pub fn new(bytes: &'a [u8], lexemes: &'a [Lexeme], line: u32, end_col: u32) -> Parser<'a>
        requires { All (IsCutFrom bytes.now) lexemes.now }
        ensures { result ≡ record
            { line = line; end_col = end_col; rest = map (piece_in bytes.now) lexemes.now } }
    {
        Parser {
            bytes,
            rest: lexemes,
            line,
            end_col,
        }
    }

    /// What the next token says.
    pub fn first(&self) -> Option<What<'a>>
        ensures { token_value_in result ≡ first self.now }
    {
        match self.rest {
            [lexeme, ..] => Some(lexeme.what(self.bytes)),
            [] => None,
        }
    }

    /// What the token behind the next one says.
    pub fn second(&self) -> Option<What<'a>>
        ensures { token_value_in result ≡ second self.now }
    {
        match self.rest {
            [_, lexeme, ..] => Some(lexeme.what(self.bytes)),
            _ => None,
        }
    }

    /// Passes over the next token, if there is one.
    pub fn skip(&mut self)
        ensures after { self.new ≡ past self.old }
    {
        if let [_, rest @ ..] = self.rest {
            self.rest = rest;
        }
    }

    /// How many tokens are left.
    pub fn left(&self) -> usize
        ensures { result ≡ length self.now.rest }
    {
        self.rest.len()
    }

    /// The number of the line.
    pub fn line(&self) -> u32
        ensures { result ≡ self.now.line }
    {
        self.line
    }

    /// The column of the next token; the end of the line is a token just after the last one.
    pub fn place(&self) -> u32
        ensures { result ≡ place self.now }
    {
        match self.rest {
            [lexeme, ..] => lexeme.col,
            [] => self.end_col,
        }
    }

    /// A fault at the next token.
    pub fn fault(&self, kind: ParseKind) -> ParseFault
        ensures { result ≡ fault kind self.now }
    {
        ParseFault {
            line: self.line,
            col: self.place(),
            kind,
        }
    }

    /// Whether the next token is this mark.
    pub fn is_next(&self, mark: u8) -> bool
        ensures { result ≡ is_next_mark mark self.now }
    {
        match self.first() {
            Some(What::Mark(m)) => m == mark,
            _ => false,
        }
    }

    /// This mark.
    pub fn mark(&mut self, mark: u8) -> Result<(), ParseFault>
        ensures { Gives (λ _. self.new) result (mark_at mark self.old) }
    {
        if self.is_next(mark) {
            self.skip();
            Ok(())
        } else {
            Err(self.fault(ParseKind::Syntax))
        }
    }

    /// The end of the line.
    pub fn end(&self) -> Result<(), ParseFault>
        ensures { Gives (λ _. self.now) result (line_end_at self.now) }
    {
        match self.first() {
            None => Ok(()),
            Some(_) => Err(self.fault(ParseKind::Syntax)),
        }
    }

    /// Puts what was read into `out`, where the line ends here.
    // Called, it would have each body made in one place and copied to another.
    #[inline(always)]
    #[tactic(auto, unfolding(crate::specs::Inside::Grammar::read))]
    pub fn close(&mut self, out: &mut Body, body: Body) -> Result<(), ParseFault>
        ensures { Gives (λ _. out.new) result (read (ends body) self.old) }
    {
        self.end()?;
        *out = body;
        Ok(())
    }
}
