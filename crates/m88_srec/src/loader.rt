//! A loader: an S-record text that comes in pieces.
ghost use Rattle.std.specs.Prelude.{ℕ, List, ◌≡◌, ◌+◌, ◌<◌, ◌^◌, ◌++◌, [], length, IfErr, None, Some, Err};
ghost use Rattle.m88_srec.specs.Accepted.{whole_of};
ghost use Rattle.m88_srec.specs.Fed.{AnswersFed, IsFed};
ghost use Rattle.m88_srec.specs.GivesVerdict.{GivesVerdict};
ghost use Rattle.m88_srec.specs.Verdict.{verdict};
ghost use Rattle.m88_srec.specs.declared.fault.SrecFault.{SrecFault};

use crate::fault::SrecFault;
use crate::so_far::TextSoFar;
use m88_base::Image;
use std::alloc::Global;
use std::marker::Model;

/// Reads an S-record text piece by piece, fewer than 2^31 bytes in all. It keeps the image so far and the first 514
/// bytes of the line whose end has not come, and no text beyond that.
#[derive(Drop)]
pub struct Loader {
    text: TextSoFar,
    total: usize,
    fault: Option<SrecFault>,
}

impl Model for Loader {
    ghost use Rattle.m88_srec.specs.Fed.{LoaderView};
    ghost use Rattle.m88_srec.specs.Inside.Taking.{IsCountedWithin, front_seen};

    ghost Value = { LoaderView };

    ghost view = { λ x. record {
      image = x.text.loading.image;
      records = x.text.loading.records;
      start = x.text.loading.start;
      number = x.text.number;
      front = front_seen x.text.front;
      cr = x.text.cr;
      total = x.total;
      fault = x.fault;
    } };

    ghost invariant = { λ x. IsCountedWithin x.total x.text x.fault };
}

impl Loader {
    /// A loader that was fed nothing. It takes no memory.
    pub fn new(alloc: Global) -> Loader
        ensures fed { IsFed [] result }
        ensures total { result.total ≡ 0 }
        ensures fault { result.fault ≡ None }
    {
        Loader {
            text: TextSoFar::new(alloc),
            total: 0,
            fault: None,
        }
    }

    /// Takes the next piece of the text. Behind a fault it answers that fault again, and so does each later call.
    pub fn feed(&mut self, piece: &[u8]) -> Result<(), SrecFault>
        requires { self.old.total + length piece.now < 2 ^ 31 }
        ensures total { self.new.total ≡ self.old.total + length piece.now }

        // However a text was cut into the pieces before, behind this one it is the text with this piece.
        ensures fed { (text : List ℕ) → IsFed text self.old → IsFed (text ++ piece.now) self.new }

        // A fault is answered as soon as the line that has it ended.
        ensures answer { (text : List ℕ) → IsFed text self.old
            → AnswersFed (text ++ piece.now) result }
        ensures kept { IfErr result (λ fault. self.new.fault ≡ Some fault) }
        ensures again { (fault : SrecFault) → self.old.fault ≡ Some fault → result ≡ Err fault }
    {
        self.total += piece.len();
        if let Some(fault) = self.fault {
            return Err(fault);
        }
        match self.text.piece(piece) {
            Ok(()) => Ok(()),
            Err(fault) => {
                self.fault = Some(fault);
                Err(fault)
            }
        }
    }

    /// The image of the whole text, all pieces joined, or its first fault.
    pub fn finish(self) -> Result<Image, SrecFault>
        // However it was cut, what `read_srec` answers for it.
        ensures value { (text : List ℕ) → IsFed text self
            → GivesVerdict whole_of result (verdict text) }
        ensures again { (fault : SrecFault) → self.fault ≡ Some fault → result ≡ Err fault }
    {
        match self.fault {
            Some(fault) => Err(fault),
            None => self.text.finish(),
        }
    }
}
