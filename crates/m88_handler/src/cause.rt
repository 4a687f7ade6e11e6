//! What comes of an instruction of a handler.

/// Why a handler fails.
#[derive(Clone, Copy, PartialEq, Eq, Debug)]
pub enum Cause {
    /// An instruction raises this vector, or is a taken trap of it.
    Vector(u16),
    /// A word for PSR differs in a bit that can't be changed.
    Psr,
    /// The instructions that it may have are used up.
    Steps,
    /// At the return the shadow registers aren't frozen: SFRZ is clear.
    Sfrz,
    /// At the return EPSR is the status of no program.
    Epsr,
    /// At the return a register of SSBR would wait for ever.
    Ssbr,
    /// At the return V of SFIP is clear.
    Sfip,
}

/// What comes of an instruction.
#[derive(Clone, Copy, PartialEq, Eq, Debug)]
pub enum Course {
    /// The next one follows.
    GoesOn,
    /// It stored to the port that stops the run.
    Stops,
    /// It returns from the exception.
    Returns,
    /// It isn't done, and the handler fails.
    Fails(Cause),
}
