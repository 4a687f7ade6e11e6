//! The refusal of an input, the line that says so, and the line of the input that it is at.
ghost use Rattle.std.specs.Prelude.{◌≡◌, ◌++◌, IfOk, OnOk, None, string_bytes};
ghost use Rattle.m88_base.specs.Refused.{refused_line};
ghost use Rattle.m88_base.specs.Refusal.{refusal_line};
ghost use Rattle.m88_base.specs.Shown.{IsShownOf};

use crate::failing::NoMemory;
use crate::line::line_numbered;
use crate::numerals::push_decimal;
use std::alloc::{AllocError, Global};
use std::marker::Model;

/// Where and why an input is refused.
#[derive(Debug, Drop)]
pub struct Refusal {
    line: u64,
    column: u32,
    reason: String,
}

impl Model for Refusal {
    ghost use Rattle.std.specs.Prelude.{string_bytes};
    ghost use Rattle.m88_base.specs.Refusal.{Refusal as RefusalValue};

    ghost Value = { RefusalValue };

    ghost view = { λ r. record { line = r.line; column = r.column; reason = string_bytes r.reason } };
}

impl Refusal {
    /// A refusal at a line and a column, both from 1, for a reason.
    pub fn new(line: u64, column: u32, reason: String) -> Refusal
        ensures { result ≡ record { line = line; column = column; reason = string_bytes reason } }
    {
        Refusal {
            line,
            column,
            reason,
        }
    }

    /// A copy of the refusal, with a reason of its own.
    pub fn copy(&self, alloc: Global) -> Result<Refusal, NoMemory>
        ensures { IfOk result (λ refusal. refusal ≡ self.now) }
    {
        Ok(Refusal {
            line: self.line,
            column: self.column,
            reason: String::from_str(alloc, self.reason.as_str())?,
        })
    }

    /// The line of the input, from 1.
    pub fn line(&self) -> u64
        ensures { result ≡ self.now.line }
    {
        self.line
    }

    /// The column of that line, from 1.
    pub fn column(&self) -> u32
        ensures { result ≡ self.now.column }
    {
        self.column
    }

    /// The reason as it is written.
    pub fn reason(&self) -> &[u8]
        ensures { result.now ≡ self.now.reason }
    {
        self.reason.as_bytes()
    }

    /// The line `refused LINE:COL REASON` with its line end.
    pub fn text(&self, alloc: Global) -> Result<Vec<u8>, NoMemory>
        ensures { IfOk result (λ text. text.items ≡ refusal_line self.now) }
    {
        let mut text = Vec::new(alloc);
        push_refused(&mut text, self.line, self.column, self.reason.as_bytes())?;
        Ok(text)
    }
}

/// The refusal of an input, and the line of the input that it is at, without its line end: None where the input has no
/// such line or isn't kept as a text.
#[derive(Debug, Drop)]
pub struct Refused {
    pub refusal: Refusal,
    pub line: Option<Vec<u8>>,
}

impl Refused {
    /// A refusal of an input that isn't kept as a text.
    pub fn unshown(refusal: Refusal) -> Refused
        ensures { result ≡ record { refusal = refusal; line = None } }
    {
        Refused {
            refusal,
            line: None,
        }
    }

    /// This refusal, with the line of the input that it is at.
    pub fn showing(self, alloc: Global, input: &[u8]) -> Result<Refused, NoMemory>
        ensures same { IfOk result (λ refused. refused.refusal ≡ self.refusal) }
        ensures shown { IfOk result (IsShownOf input.now) }
    {
        let line = match line_numbered(input, self.refusal.line) {
            Some(line) => Some(Vec::from_slice(alloc, line)?),
            None => None,
        };
        Ok(Refused {
            refusal: self.refusal,
            line,
        })
    }
}

/// Appends the line `refused LINE:COL REASON` with its line end. Line and column count from 1.
pub fn push_refused(
    text: &mut Vec<u8>,
    line: u64,
    col: u32,
    reason: &[u8],
) -> Result<(), AllocError>
    ensures { OnOk result (text.new.items ≡ text.old.items ++ refused_line line col reason.now) }
{
    text.extend_from_slice(b"refused ")?;
    push_decimal(text, line)?;
    text.push(b':')?;
    push_decimal(text, u64::from(col))?;
    text.push(b' ')?;
    text.extend_from_slice(reason)?;
    text.push(b'\n')?;
    Ok(())
}
