//! A text whose bytes come one after another.
ghost use Rattle.std.specs.Prelude.{◌≡◌, ◌≤◌, ◌<◌, ◌^◌, false, length, IfOk, IfSome};
ghost use Rattle.m88_srec.specs.Accepted.{whole_of};
ghost use Rattle.m88_srec.specs.GivesVerdict.{GivesVerdict};
ghost use Rattle.m88_srec.specs.Inside.Loads.{fault_of_line, load_seen};
ghost use Rattle.m88_srec.specs.Inside.Steps.{Becomes, BeginsLine, CanStep, HasRoomFor, IsOpened, JudgesFront, Steps, TakesByte, TakesHeld, TakesPiece};
ghost use Rattle.m88_srec.specs.Inside.Taking.{EndsAlone, IsWholeLine, begun_seen, byte_taken, ended_at, at_text_end, front_seen, gone_on, judged_front, reach};
ghost use Rattle.m88_srec.specs.Verdict.{judged};

use crate::digits::MOST_RECORD_BYTES;
use crate::fault::{SrecFault, SrecKind};
use crate::front::{Front, MOST_KEPT};
use crate::loading::Loading;
use m88_base::{Image, split_at_byte};
use std::alloc::Global;

/// What the lines so far load, the number of the line whose end has not come, what is kept of it, whether a CR behind
/// that is held back, which may belong to the line end, and room for the bytes of a record, made once for all lines.
#[derive(Drop)]
pub struct TextSoFar {
    pub loading: Loading,
    pub number: u32,
    pub front: Front,
    pub cr: bool,
    pub room: [u8; MOST_RECORD_BYTES],
}

/// The fault of a line; memory that ran out has no line.
fn fault_at(line: u32, kind: SrecKind) -> SrecFault
    ensures { result ≡ fault_of_line line kind }
{
    match kind {
        SrecKind::Memory => SrecFault { line: 0, kind },
        kind => SrecFault { line, kind },
    }
}

/// Whether the last byte of a line is a CR, which belongs to the line end. Only of a line without one is something
/// promised: any other is taken byte by byte, and so comes to the same.
fn has_cr(line: &[u8]) -> bool
    ensures { result ≡ false → EndsAlone line.now }
{
    match line.split_last() {
        Some((last, _)) => *last == b'\r',
        None => false,
    }
}

/// The first line of what is left of a piece, where its end is there, no CR belongs to that, and it isn't longer than
/// what is kept of a line; and what is left behind it. Nothing is promised of None: the text is then taken byte by
/// byte, which comes to the same.
fn whole_line(rest: &[u8]) -> Option<(&[u8], &[u8])>
    ensures { IfSome result (λ p. IsWholeLine rest.now p.0.now p.1.now) }
{
    match split_at_byte(b'\n', rest) {
        Some((line, left)) if line.len() <= MOST_KEPT && !has_cr(line) => Some((line, left)),
        _ => None,
    }
}

impl TextSoFar {
    /// A text without a byte so far.
    pub fn new(alloc: Global) -> TextSoFar
        ensures { IsOpened result }
    {
        TextSoFar {
            loading: Loading::new(alloc),
            number: 1,
            front: Front::new(),
            cr: false,
            room: [0; MOST_RECORD_BYTES],
        }
    }

    /// Takes one byte more of the line.
    fn push(&mut self, byte: u8)
        requires { self.old.front.len < 2 ^ 31 }
        ensures { TakesByte self.old self.new byte }
    {
        self.front.push(byte);
        self.cr = false;
    }

    /// Takes the CR that was held back as a byte of the line.
    fn push_held(&mut self)
        requires { reach self.old ≤ 2 ^ 31 }
        ensures { TakesHeld self.old self.new }
    {
        if self.cr {
            self.push(b'\r');
        }
    }

    /// Judges the line by what is kept of it.
    #[tactic(auto, unfolding(crate::specs::Inside::Taking::judged_front))]
    fn judge(&mut self) -> Result<(), SrecKind>
        requires { HasRoomFor self.old 0 }
        ensures { JudgesFront self.old self.new result }
    {
        if self.front.len <= MOST_KEPT {
            return self
                .loading
                .line(self.front.kept.as_slice(), &mut self.room);
        }
        if self.loading.start.is_some() {
            return Err(SrecKind::AfterEnd);
        }
        Err(self.front.overlong_fault())
    }

    /// The line ended: judges it and begins the next.
    fn close(&mut self) -> Result<(), SrecKind>
        requires { HasRoomFor self.old 1 }
        ensures { Becomes self.old self.new result (ended_at (begun_seen self.old)
            (judged_front (load_seen self.old.loading) (front_seen self.old.front))) }
    {
        self.judge()?;
        self.number += 1;
        self.front = Front::new();
        self.cr = false;
        Ok(())
    }

    /// Takes one byte more of the text.
    #[tactic(auto, unfolding(crate::specs::Inside::Taking::byte_taken))]
    fn byte(&mut self, byte: u8) -> Result<(), SrecKind>
        requires { HasRoomFor self.old 1 }
        ensures { Becomes self.old self.new result (byte_taken (begun_seen self.old) byte) }
    {
        if byte == b'\n' {
            return self.close();
        }
        self.push_held();
        if byte == b'\r' {
            self.cr = true;
        } else {
            self.push(byte);
        }
        Ok(())
    }

    /// Takes the first byte of what is left of a piece, and answers what is left behind it.
    fn first<'a>(&mut self, rest: &'a [u8]) -> Result<&'a [u8], SrecKind>
        requires { CanStep self.old rest.now }
        ensures { Steps rest.now self.old self.new result }
    {
        match rest.split_first() {
            Some((byte, left)) => match self.byte(*byte) {
                Ok(()) => Ok(left),
                Err(kind) => Err(kind),
            },
            None => unreachable!(),
        }
    }

    /// Takes a line that stands whole in what is left of a piece, and answers what is left behind its end.
    fn line<'a>(&mut self, line: &[u8], left: &'a [u8]) -> Result<&'a [u8], SrecKind>
        requires { BeginsLine self.old line.now }
        ensures value { Becomes self.old self.new result (gone_on (begun_seen self.old)
            (judged (load_seen self.old.loading) line.now)) }
        ensures left { IfOk result (λ rest. rest.now ≡ left.now) }
    {
        self.loading.line(line, &mut self.room)?;
        self.number += 1;
        Ok(left)
    }

    /// Takes the next line of what is left of a piece, where the text begins one and its end is there, else the next
    /// byte; and answers what is left behind that.
    fn next<'a>(&mut self, rest: &'a [u8]) -> Result<&'a [u8], SrecKind>
        requires { CanStep self.old rest.now }
        ensures { Steps rest.now self.old self.new result }
    {
        if self.front.len == 0 && !self.cr {
            if let Some((line, left)) = whole_line(rest) {
                return self.line(line, left);
            }
        }
        self.first(rest)
    }

    /// Takes a piece more of the text, up to the first fault.
    pub fn piece(&mut self, piece: &[u8]) -> Result<(), SrecFault>
        requires { HasRoomFor self.old (length piece.now) }
        ensures { TakesPiece piece.now self.old self.new result }
    {
        let mut rest = piece;
        while !rest.is_empty() {
            let number = self.number;
            match self.next(rest) {
                Ok(left) => rest = left,
                Err(kind) => return Err(fault_at(number, kind)),
            }
        }
        Ok(())
    }

    /// The image behind the last line, or its fault.
    #[tactic(auto, unfolding(crate::specs::Inside::Taking::at_text_end))]
    pub fn finish(self) -> Result<Image, SrecFault>
        requires { HasRoomFor self 0 }
        ensures { GivesVerdict whole_of result (at_text_end (begun_seen self)) }
    {
        let mut text = self;
        text.push_held();
        if text.front.len == 0 {
            return text.loading.finish(text.number);
        }
        let number = text.number;
        if let Err(kind) = text.judge() {
            return Err(fault_at(number, kind));
        }
        text.loading.finish(number + 1)
    }
}
