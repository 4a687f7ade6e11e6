//! What the lines so far load, and one line more.
ghost use Rattle.std.specs.Prelude.{◌≡◌, ◌≤◌, ◌<◌, ◌^◌, length};
ghost use Rattle.m88_srec.specs.Accepted.{whole_of};
ghost use Rattle.m88_srec.specs.Verdict.{acted, ended_on, framed_on, judged, opening_load, data_placed, summed};
ghost use Rattle.m88_srec.specs.Front.{most_kept};
ghost use Rattle.m88_srec.specs.Inside.Forms.{AreWhole, form_seen};
ghost use Rattle.m88_srec.specs.GivesVerdict.{GivesVerdict};
ghost use Rattle.m88_srec.specs.Inside.Loads.{TakesRecord, load_seen};

use crate::digits::MOST_RECORD_BYTES;
use crate::fault::{SrecFault, SrecKind};
use crate::form::Form;
use crate::purpose::Purpose;
use crate::record::{address_of, computed_sum, record_form};
use m88_base::{Image, ImageFault};
use std::alloc::Global;

/// What the lines so far load: the image, the number of records that load, and the start address once the end record
/// came.
#[derive(Drop)]
pub struct Loading {
    pub image: Image,
    pub records: u32,
    pub start: Option<u32>,
}

impl Loading {
    /// Nothing is loaded yet.
    pub fn new(alloc: Global) -> Loading
        ensures { load_seen result ≡ opening_load }
    {
        Loading {
            image: Image::new(alloc),
            records: 0,
            start: None,
        }
    }

    /// Takes one line more. The bytes of its record come to stand in the room.
    #[tactic(auto, unfolding(crate::specs::Verdict::judged))]
    pub fn line(&mut self, line: &[u8], room: &mut [u8; MOST_RECORD_BYTES]) -> Result<(), SrecKind>
        requires counted { self.old.records < 2 ^ 31 }
        requires short { length line.now ≤ most_kept }
        ensures { TakesRecord self.old self.new result (judged (load_seen self.old) line.now) }
    {
        if line.is_empty() {
            return Ok(());
        }
        if self.start.is_some() {
            return Err(SrecKind::AfterEnd);
        }
        match record_form(line, room) {
            Some(form) => self.form(&form),
            None => Err(SrecKind::Form),
        }
    }

    /// Takes a line that has the form of a record.
    #[tactic(auto, unfolding(crate::specs::Verdict::framed_on))]
    fn form(&mut self, form: &Form<'_>) -> Result<(), SrecKind>
        requires { self.old.records < 2 ^ 31 }
        ensures { TakesRecord self.old self.new result (framed_on (load_seen self.old)
            (form_seen form.now)) }
    {
        if form.is_miscounted() {
            return Err(SrecKind::Count {
                written: form.count(),
                found: form.following() as u32,
            });
        }
        self.bytes(form.purpose, form.width, form.bytes, form.total)
    }

    /// Takes the bytes of a record whose count is right, with what they add up to.
    #[tactic(auto, unfolding(crate::specs::Verdict::summed))]
    fn bytes(
        &mut self,
        purpose: Purpose,
        width: usize,
        bytes: &[u8],
        total: u32,
    ) -> Result<(), SrecKind>
        requires counted { self.old.records < 2 ^ 31 }
        requires whole { AreWhole width bytes.now total }
        ensures { TakesRecord self.old self.new result (summed (load_seen self.old)
            (record { purpose = purpose; width = width; bytes = bytes.now })) }
    {
        let last = bytes.len() - 1;
        let (counted, written) = (&bytes[..last], bytes[last]);
        let computed = computed_sum(bytes, total);
        if written != computed {
            return Err(SrecKind::Sum { written, computed });
        }
        let (address, given) = (&bytes[1..width + 1], &counted[width + 1..]);
        self.carry_out(purpose, address_of(address), given)
    }

    /// Does what a record is for.
    #[tactic(auto, unfolding(crate::specs::Verdict::acted))]
    fn carry_out(&mut self, purpose: Purpose, at: u32, given: &[u8]) -> Result<(), SrecKind>
        requires { self.old.records < 2 ^ 31 }
        ensures { TakesRecord self.old self.new result
            (acted (load_seen self.old) purpose at given.now) }
    {
        match purpose {
            Purpose::Header => Ok(()),
            Purpose::Data => self.place(at, given),
            Purpose::Tally => {
                if at == self.records {
                    Ok(())
                } else {
                    Err(SrecKind::CountRecord {
                        written: at,
                        found: self.records,
                    })
                }
            }
            Purpose::End => {
                self.start = Some(at);
                Ok(())
            }
        }
    }

    /// Loads data from an address on.
    #[tactic(auto, using(crate::proofs::Free::placing), unfolding(crate::specs::Verdict::data_placed))]
    fn place(&mut self, at: u32, given: &[u8]) -> Result<(), SrecKind>
        requires { self.old.records < 2 ^ 31 }
        ensures { TakesRecord self.old self.new result (data_placed (load_seen self.old) at given.now) }
    {
        match self.image.add(at, given) {
            Ok(()) => {
                self.records += 1;
                Ok(())
            }
            Err(ImageFault::TooLarge) => Err(SrecKind::TooLarge),
            Err(ImageFault::Overlap(taken)) => Err(SrecKind::Overlap(taken)),
            Err(ImageFault::Memory) => Err(SrecKind::Memory),
        }
    }

    /// The image behind the last line, whose number is the one before this.
    pub fn finish(self, number: u32) -> Result<Image, SrecFault>
        ensures { GivesVerdict whole_of result (ended_on number
            (load_seen self).loaded self.start) }
    {
        match self.start {
            Some(start) => {
                let mut image = self.image;
                image.set_start(start);
                Ok(image)
            }
            None => Err(SrecFault {
                line: number,
                kind: SrecKind::NoEnd,
            }),
        }
    }
}
