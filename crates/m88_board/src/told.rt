//! What an event tells of its instruction.

ghost use Rattle.std.specs.Prelude.{◌≡◌, true};
ghost use Rattle.m88_isa.specs.Memory.{AreWordAccesses};
ghost use Rattle.m88_isa.specs.declared.planned.Plan.TheVariants.{Go};
ghost use Rattle.m88_board.specs.Told.{MakesWordAccesses};

use m88_isa::{Effect, Plan};

/// What an event tells of its instruction. Where none goes on, the word and the plan are what they were, or those of
/// one that was tried.
#[derive(Clone, Copy, Debug)]
pub struct Told {
    /// The word of the instruction that is issued, or for which a byte is put out.
    pub word: u32,
    /// What the instruction does, where it is issued and somebody asks.
    pub plan: Plan,
    /// Whether somebody asks what the instruction does: in `Walk::next_told` alone, and elsewhere no plan is copied.
    pub(crate) asked: bool,
}

impl Told {
    /// Nothing is told yet.
    pub fn nothing() -> Told
        ensures { MakesWordAccesses result.plan }
    {
        Told {
            word: 0,
            plan: Plan::Raise(0),
            asked: false,
        }
    }

    /// Tells what an instruction does, where somebody asks.
    // Inlined, it costs one test where nobody asks.
    #[inline(always)]
    pub(crate) fn tell(&mut self, effect: &Effect)
        ensures plan { self.old.asked ≡ true → self.new.plan ≡ Go effect.now }
        ensures made { AreWordAccesses effect.now.accesses.count effect.now.accesses
            → MakesWordAccesses self.old.plan → MakesWordAccesses self.new.plan }
    {
        if self.asked {
            self.plan = Plan::Go(*effect);
        }
    }
}
