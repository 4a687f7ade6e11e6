//! The tokens of a line.
ghost use Rattle.std.specs.Prelude.{◌≡◌, ◌<◌, ◌^◌, ◌⊎◌, List, Ok, Err, length, map, IfOk, IfErr, OnOk};
ghost use Rattle.std.specs.List.{All};
ghost use Rattle.m88_parse.specs.declared.fault.ParseFault.{ParseFault as FaultValue};
ghost use Rattle.m88_parse.specs.Fault.{Gives, out_of_memory, IsCutKind};
ghost use Rattle.m88_parse.specs.Inside.Places.{IsCutFrom};
ghost use Rattle.m88_parse.specs.Language.Pieces.{IsTokenOf, Piece, PlainToken, plain_token, token_of};
ghost use Rattle.m88_parse.specs.Language.FirstFaults.{IsTokenFault};
ghost use Rattle.m88_parse.specs.Language.Tokens.{LineTokens, AreTokensOf};
ghost use Rattle.m88_parse.specs.Inside.Tokens.{piece_in, pieces_of, tokens_of};

use crate::fault::ParseFault;
use crate::scan::front;
use crate::token::{Kept, Lexeme, Token, TokenKind};
use std::alloc::Global;

/// The tokens of a line with what they say, from left to right, in the place of those that stood in `out`.
// Called, so that its loop has the registers to itself.
#[inline(never)]
pub(crate) fn cut_line(out: &mut Vec<Lexeme>, line: &[u8], number: u32) -> Result<(), ParseFault>
    requires { length line.now < 2 ^ 31 }
    ensures cuts { Gives (λ _. map (piece_in line.now) out.new.items) result
        (pieces_of number line.now) }
    ensures places { OnOk result (All (IsCutFrom line.now) out.new.items) }
{
    out.clear();
    let mut rest = line;
    let mut col: u32 = 1;
    while !rest.is_empty() {
        let cut = match front(rest) {
            Ok(cut) => cut,
            Err(flaw) => {
                return Err(ParseFault {
                    line: number,
                    col: col + flaw.at as u32,
                    kind: flaw.kind,
                });
            }
        };
        let (_, after) = rest.split_at(cut.len);
        if let Some(kept) = cut.kept {
            let len = cut.len as u32;
            out.push(Lexeme { col, len, kept })?;
        }
        rest = after;
        col += cut.len as u32;
    }
    Ok(())
}

/// A token of a line without what it says; `number` is the line's number.
fn token_of<'a>(lexeme: &Lexeme, line: &'a [u8], number: u32) -> Token<'a>
    requires { IsCutFrom line.now lexeme.now }
    ensures { plain_token result ≡ token_of number (piece_in line.now lexeme.now) }
{
    Token {
        text: lexeme.text(line),
        line: number,
        col: lexeme.col,
        kind: match lexeme.kept {
            Kept::Name => TokenKind::Name,
            Kept::Number(_) => TokenKind::Number,
            Kept::Text => TokenKind::Text,
            Kept::Mark(_) => TokenKind::Mark,
        },
    }
}

/// The tokens of a line without what they say.
fn cut_tokens<'a>(alloc: Global, line: &'a [u8], number: u32) -> Result<Vec<Token<'a>>, ParseFault>
    requires short { length line.now < 2 ^ 31 }
    ensures cuts { Gives (λ v. map plain_token v.items) result (tokens_of number line.now) }
    ensures slices { IfOk result (λ v. All (IsTokenOf line.now) v.items) }
{
    let mut lexemes = Vec::new(alloc);
    cut_line(&mut lexemes, line, number)?;
    let mut out = Vec::new(alloc);
    for lexeme in &lexemes {
        out.push(token_of(lexeme, line, number))?;
    }
    Ok(out)
}

/// The tokens of a line, which has no line end, from left to right; `number` is the line's number. Else
/// the first place that can't be cut into a token: NotAscii, Syntax or OutOfRange.
pub fn tokens<'a>(alloc: Global, line: &'a [u8], number: u32) -> Result<Vec<Token<'a>>, ParseFault>
    requires short { length line.now < 2 ^ 31 }
    // What is cut are the tokens of the line.
    ensures found { IfOk result (λ v. AreTokensOf number line.now (map plain_token v.items)) }
    // The tokens of a line are cut, unless memory runs out.
    ensures only { (ts : List PlainToken) → AreTokensOf number line.now ts
        → Gives (λ v. map plain_token v.items) result (Ok ts) }
    // A fault is the first place that can't be cut, or memory ran out.
    ensures fault { IfErr result (λ e. (e ≡ out_of_memory) ⊎ IsTokenFault number line.now e) }
    // A line with such a place gets its fault, unless memory runs out.
    ensures refused { (e : FaultValue) → IsTokenFault number line.now e
        → Gives (λ v. map plain_token v.items) result (Err e) }
    // A line has at most one list of tokens.
    ensures one_cutting { (ps qs : List Piece) → LineTokens line.now ps → LineTokens line.now qs
        → ps ≡ qs }
    ensures slices { IfOk result (λ v. All (IsTokenOf line.now) v.items) }
    ensures kind { IfErr result (λ e. (e ≡ out_of_memory) ⊎ IsCutKind e.kind) }
{
    cut_tokens(alloc, line, number)
}
