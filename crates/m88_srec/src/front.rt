//! What is kept of a line whose end has not come.
ghost use Rattle.std.specs.Prelude.{◌≡◌, ◌+◌, ◌<◌, ◌^◌, []};
ghost use Rattle.m88_srec.specs.Front.{front_of};
ghost use Rattle.m88_srec.specs.Inside.Taking.{KeepsByte, front_seen, overlong_fault};

use crate::digits::{MOST_RECORD_BYTES, is_hexadecimal};
use crate::fault::SrecKind;
use crate::record::record_form;
use arrayvec::ArrayVec;

/// The most bytes of a line that are kept: the letter, the type digit and 256 pairs, as many as the longest record
/// has.
pub const MOST_KEPT: usize = 514;

/// The first bytes of a line, and of a longer one how many bytes it has and whether the others are hexadecimal
/// digits.
#[derive(Drop)]
pub struct Front {
    pub kept: ArrayVec<u8, MOST_KEPT>,
    pub len: usize,
    pub digits: bool,
}

impl Front {
    /// A line without a byte so far.
    pub fn new() -> Front
        ensures { front_seen result ≡ front_of [] }
    {
        Front {
            kept: ArrayVec::new(),
            len: 0,
            digits: true,
        }
    }

    /// Takes one byte more of the line.
    pub fn push(&mut self, byte: u8)
        requires { self.old.len < 2 ^ 31 }
        ensures { KeepsByte self.old self.new byte }
    {
        if self.kept.is_full() {
            self.digits = self.digits && is_hexadecimal(byte);
        } else {
            self.kept.push(byte);
        }
        self.len += 1;
    }

    /// Why a line that is longer than all that is kept is refused: its count can't be right, where it has the form of
    /// a record.
    #[tactic(auto, unfolding(crate::specs::Inside::Taking::overlong_fault))]
    pub fn overlong_fault(&self) -> SrecKind
        requires long { MOST_KEPT < self.now.len }
        requires small { self.now.len < 2 ^ 31 }
        ensures { result ≡ overlong_fault (front_seen self.now) }
    {
        let mut room = [0; MOST_RECORD_BYTES];
        match record_form(self.kept.as_slice(), &mut room) {
            Some(form) if self.digits && self.len % 2 == 0 => SrecKind::Count {
                written: form.count(),
                found: (self.len / 2 - 2) as u32,
            },
            _ => SrecKind::Form,
        }
    }
}
