//! An interrupt, by which programs change places on a board.

ghost use Rattle.std.specs.Prelude.{ℕ, Bool, [], ◌≡◌, ◌<◌, ◌↔◌, false, true, length, IfErr, IfOk, IsErr, IsOk, OnErr, OnOk};
ghost use Rattle.m88_event.specs.Local.{record_by};
ghost use Rattle.m88_event.specs.Timeline.{Moment, Run, is_drained, record_at};
ghost use Rattle.m88_isa.specs.ImageProgram.{IsProgramOf};
ghost use Rattle.m88_isa.specs.Machine.{Program};
ghost use Rattle.m88_mem.specs.Marks.{absent_in};
ghost use Rattle.m88_scoreboard.specs.Registers.{none_waits, waiting_of};
ghost use Rattle.m88_board.specs.Board.{local_of};
ghost use Rattle.m88_board.specs.Contexts.{IsRunOf, StandsFor, StandsForSome, context_of, switched};
ghost use Rattle.m88_board.specs.Kept.{IsKept};
ghost use Rattle.m88_board.specs.Moves.{IsAt};

use super::Board;
use crate::context::{Context, NotEmpty, Saved};
use crate::sharing::{come_back, leave, saved_by};
use m88_event::Record;
use m88_scoreboard::RegFile;
use std::mem;

impl Board {
    /// An external interrupt, vector 1, by which the program that runs and that of a context change places. Where
    /// something is pending, nothing is changed. Else the exception is entered with SSBR 0 and triples of zeros, the
    /// words that it saves become the context's, and the board goes on by those that the context had. The answer is
    /// what `pipe` shows before. It takes no memory.
    pub fn interrupt(&mut self, other: &mut Context) -> Result<Record, NotEmpty>
        requires stands { StandsForSome other.old }
        requires begun { self.old.begun ≡ false }

        // It is refused exactly where something is pending, and then both are as before.
        ensures held { IsErr result ↔ (0 < length self.old.pending) }
        ensures pending { IfErr result (λ e. e.pending ≡ length self.old.pending) }
        ensures same { OnErr result (self.new ≡ self.old) }
        ensures other_same { OnErr result (other.new ≡ other.old) }

        // The board stands where the context stood, and the context stands where the board was.
        ensures resumed { OnOk result ((r : Run) (m : Moment)
            → StandsFor r m other.old → IsAt r m self.new) }
        ensures suspended { OnOk result ((r : Run) (m : Moment)
            → r.absent ≡ absent_in self.old.named → IsAt r m self.old → StandsFor r m other.new) }

        // The same by the words themselves: those of the program that runs now are the context's, those of the context
        // are the program's that ran, and nothing is pending.
        ensures runs { OnOk result (context_of self.new ≡ other.old) }
        ensures keeps { OnOk result (other.new ≡ context_of self.old) }
        ensures empty { OnOk result (self.new.pending ≡ []) }
        ensures unbegun { self.new.begun ≡ false }
        ensures waiting { OnOk result (waiting_of self.new.file ≡ none_waits) }
        ensures control { OnOk result (self.new.control ≡ switched other.old.saved self.old) }

        // Each goes on with its own run.
        ensures run { OnOk result (IsRunOf other.old self.new) }
        ensures other_run { OnOk result (IsRunOf other.new self.old) }

        // The record is that of the moment before.
        ensures record { IfOk result (λ fault. (p : Program) → IsProgramOf self.old.memory.image p
            → fault ≡ record_by p self.old.limit (local_of self.old)) }
        ensures moment { IfOk result (λ fault. (r : Run) (m : Moment)
            → IsAt r m self.old → fault ≡ record_at r m) }
        ensures drained { (r : Run) (m : Moment) → IsAt r m self.old
            → IsOk result ↔ (is_drained r.program m ≡ true) }
        ensures kept { OnOk result (IsKept self.new) }
    {
        if self.is_pending() {
            return Err(NotEmpty {
                pending: self.pending(),
            });
        }
        let record = self.pipe();
        let resumed = other.saved;
        leave(&mut self.ctrl, &self.iunit, self.book.end.is_some());
        let regs = self.regs.values();
        other.saved = saved_by(&self.ctrl, regs);
        self.iunit = come_back(&mut self.ctrl, &resumed);
        let regs = resumed.regs;
        self.regs = RegFile::of(regs);
        mem::swap(&mut self.memory, &mut other.memory);
        mem::swap(&mut self.book, &mut other.book);
        Ok(record)
    }

    /// The context of the program that it runs, where nothing is pending.
    pub(crate) fn into_context(self) -> Context
        requires { self.pending ≡ [] }
        ensures value { result ≡ context_of self }
        ensures run { IsRunOf result self }
        ensures stands { (r : Run) (m : Moment) → r.absent ≡ absent_in self.named → IsAt r m self
            → StandsFor r m result }
    {
        let regs = self.regs.values();
        let epsr = self.status();
        let (sxip, snip, sfip) = self.iunit.shadow();
        Context {
            saved: Saved {
                regs,
                epsr,
                sxip,
                snip,
                sfip,
            },
            memory: self.memory,
            book: self.book,
        }
    }
}
