//! The commands that make events: a number of them, up to a breakpoint, and draining.
ghost use Rattle.m88_session.specs.Inside.SessionKept.{Carries};
ghost use Rattle.m88_session.specs.declared.script.MonitorCommand.TheVariants.{Step, Go, Drain};

use super::Monitor;
use super::showing::push_counts;
use m88_base::NoMemory;
use m88_board::{Until, Watch};

impl<'a> Monitor<'a> {
    /// `step`: up to so many events, fewer where the run is over; then the line of the counts.
    pub(super) fn step<W: Watch>(
        &mut self,
        count: u32,
        watch: &mut W,
        text: &mut Vec<u8>,
    ) -> Result<(), NoMemory>
        ensures { Carries (Step count) (W.seen watch.old) (W.seen watch.new) self.old self.new
            text.old.items text.new.items result }
    {
        self.walk.go_until(Until::Made(count), watch)?;
        push_counts(text, self.walk.board())
    }

    /// `go`: events until the run is over or, after one at least, the next instruction stands at a breakpoint; then the
    /// line of the counts.
    pub(super) fn go<W: Watch>(&mut self, watch: &mut W, text: &mut Vec<u8>) -> Result<(), NoMemory>
        ensures { Carries Go (W.seen watch.old) (W.seen watch.new) self.old self.new
            text.old.items text.new.items result }
    {
        self.walk
            .go_until(Until::Breakpoint(self.breakpoints.as_slice()), watch)?;
        push_counts(text, self.walk.board())
    }

    /// `drain`: the letter `r` until nothing is pending, which is none of the run's letters; then the line of the
    /// counts.
    pub(super) fn drain<W: Watch>(
        &mut self,
        watch: &mut W,
        text: &mut Vec<u8>,
    ) -> Result<(), NoMemory>
        ensures { Carries Drain (W.seen watch.old) (W.seen watch.new) self.old self.new
            text.old.items text.new.items result }
    {
        self.walk.drain(watch)?;
        push_counts(text, self.walk.board())
    }
}
