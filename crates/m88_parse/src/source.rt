//! A source as its unit, line by line.
ghost use Rattle.std.specs.Prelude.{◌≡◌, ◌<◌, ◌+◌, ◌^◌, ◌⊎◌, Ok, Err, length, map, IfOk, IfErr, MatchResult};
ghost use Rattle.std.specs.List.{All};
ghost use Rattle.m88_parse.specs.declared.unit.Unit.{Unit as SourceUnit};
ghost use Rattle.m88_base.specs.OneVerdict.{HasOneVerdict};
ghost use Rattle.m88_parse.specs.Language.FirstFaults.{IsFirstFault};
ghost use Rattle.m88_parse.specs.Language.Units.{IsUnit};
ghost use Rattle.m88_parse.specs.declared.fault.ParseFault.{ParseFault as FaultValue};
ghost use Rattle.m88_parse.specs.Fault.{Gives, out_of_memory, IsSourceKind};
ghost use Rattle.m88_parse.specs.Inside.Places.{IsCutFrom};
ghost use Rattle.m88_parse.specs.Inside.Source.{end_of_line, unit_of};
ghost use Rattle.m88_parse.specs.Inside.Tokens.{piece_in};
ghost use Rattle.m88_parse.specs.WellFormed.{IsWellFormed};
ghost use Rattle.m88_parse.specs.Inside.Drafts.{LeadsOn, EndsWith};

use crate::draft::Draft;
use crate::fault::ParseFault;
use crate::lexemes::cut_line;
use crate::parser::Parser;
use crate::token::Lexeme;
use crate::unit::Unit;
use m88_base::{Listed, first_line};
use std::alloc::Global;

/// The column just after the last token of a line.
fn end_of_line(line: &[u8], lexemes: &[Lexeme]) -> u32
    requires short { length line.now < 2 ^ 31 }
    requires some { 0 < length lexemes.now }
    requires places { All (IsCutFrom line.now) lexemes.now }
    ensures { result ≡ end_of_line (map (piece_in line.now) lexemes.now) }
{
    let last = &lexemes[lexemes.len() - 1];
    last.col + last.len
}

/// One line more in the draft. Its tokens stand in `lexemes`, whose room serves the next line.
fn read_line(
    draft: &mut Draft,
    lexemes: &mut Vec<Lexeme>,
    alloc: Global,
    line: &[u8],
    number: u32,
) -> Result<(), ParseFault>
    requires { length line.now < 2 ^ 31 }
    ensures { MatchResult result (λ _. LeadsOn number line.now draft.new draft.old)
        (λ e. (e ≡ out_of_memory) ⊎ EndsWith number line.now draft.old e) }
{
    cut_line(lexemes, line, number)?;
    if lexemes.is_empty() {
        return Ok(());
    }
    let end_col = end_of_line(line, lexemes);
    Parser::new(line, lexemes, number, end_col).row(alloc, draft)
}

/// The modules, line by line.
fn read_unit(alloc: Global, source: &[u8]) -> Result<Unit, ParseFault>
    requires { length source.now < 2 ^ 31 }
    ensures { Gives (λ u. u) result (unit_of source.now) }
{
    let mut draft = Draft::new(alloc);
    let mut lexemes = Vec::new(alloc);
    let mut rest = source;
    let mut number: u32 = 1;
    while !rest.is_empty() {
        let (line, after) = first_line(rest);
        read_line(&mut draft, &mut lexemes, alloc, line, number)?;
        rest = after;
        number += 1;
    }
    let modules = draft.finish(alloc)?;
    Ok(Unit {
        modules: Listed::new(modules),
    })
}

/// The unit of a source, or its first fault: the lines in order, each cut into tokens before its
/// statement is read. The source is shorter than 2^31 bytes.
pub fn parse(alloc: Global, source: &[u8]) -> Result<Unit, ParseFault>
    requires { length source.now < 2 ^ 31 }
    // What is read is the unit of the source.
    ensures unit { IfOk result (λ u. IsUnit source.now u) }
    // The unit of a source is read, unless memory runs out.
    ensures only { (u : SourceUnit) → IsUnit source.now u → Gives (λ v. v) result (Ok u) }
    // A fault is the first one of the source, or memory ran out.
    ensures fault { IfErr result (λ e. (e ≡ out_of_memory) ⊎ IsFirstFault source.now e) }
    // The first fault of a source is answered, unless memory runs out.
    ensures refused { (e : FaultValue) → IsFirstFault source.now e → Gives (λ v. v) result (Err e) }
    // The source has a unit or a first fault, never both, and one at most.
    ensures one_verdict { HasOneVerdict (IsUnit source.now) (IsFirstFault source.now) }
    // What is read can be laid out.
    ensures formed { IfOk result IsWellFormed }
    ensures kind { IfErr result (λ e. (e ≡ out_of_memory) ⊎ IsSourceKind e.kind) }
{
    read_unit(alloc, source)
}
