//! Why an input is refused.
ghost use Rattle.std.specs.Prelude.{◌≡◌};
ghost use Rattle.m88_serving.specs.Faults.{serve_reason};

/// The line of an input, from 1, for which it is refused, and why.
#[derive(Clone, Copy)]
pub struct ServeFault {
    pub line: u64,
    pub kind: ServeKind,
}

/// The reasons for which an input is refused. The first of them that occurs anywhere counts.
#[derive(Clone, Copy)]
pub enum ServeKind {
    /// The line isn't of the form, or isn't there.
    Form,
    /// EPSR is the status of no mode of the board.
    Epsr,
    /// A valid transaction has a DMT that no access has.
    Access,
    /// A valid transaction's DMA is no multiple of 4.
    Address,
    /// A load's DMD isn't 0.
    Datum,
    /// A transaction that isn't valid has a word that isn't 0.
    Empty,
    /// A valid transaction stands behind one that isn't.
    Order,
    /// SSBR isn't the set of the registers that are loaded.
    Ssbr,
    /// The word was named before.
    Twice,
}

impl ServeKind {
    /// The reason in the line that refuses an input.
    pub fn reason(&self) -> &'static str
        ensures { result.now ≡ serve_reason self.now }
    {
        match self {
            ServeKind::Form => "form",
            ServeKind::Epsr => "epsr",
            ServeKind::Access => "access",
            ServeKind::Address => "address",
            ServeKind::Datum => "datum",
            ServeKind::Empty => "empty",
            ServeKind::Order => "order",
            ServeKind::Ssbr => "ssbr",
            ServeKind::Twice => "twice",
        }
    }
}
