//! The faults that name a symbol, of which linking refuses the first or keeps the first of each kind.
ghost use Rattle.std.specs.Prelude.{◌≡◌, false, true, MatchResult, None, Some};
ghost use Rattle.std.specs.Option.{option_or};
ghost use Rattle.m88_link.specs.Inside.Findings.{with_duplicate, with_uses};

use crate::fault::LinkFault;

/// What linking found: of each kind of fault that names a symbol the first.
#[derive(Drop)]
pub struct Findings {
    /// Whether linking goes on behind such a fault.
    pub goes_on: bool,
    pub duplicate: Option<LinkFault>,
    pub undefined: Option<LinkFault>,
    pub far: Option<LinkFault>,
}

/// Keeps a fault where it is the first, or refuses it where linking doesn't go on.
fn keep(goes_on: bool, first: &mut Option<LinkFault>, fault: LinkFault) -> Result<(), LinkFault>
    ensures { MatchResult result
        (λ _. (goes_on ≡ true) × (first.new ≡ option_or first.old (Some fault)))
        (λ e. (goes_on ≡ false) × (e ≡ fault)) }
{
    if !goes_on {
        return Err(fault);
    }
    if first.is_none() {
        *first = Some(fault);
    }
    Ok(())
}

impl Findings {
    /// Nothing yet.
    pub fn new(goes_on: bool) -> Findings
        ensures { result ≡ record {
          goes_on = goes_on;
          duplicate = None;
          undefined = None;
          far = None;
        } }
    {
        Findings {
            goes_on,
            duplicate: None,
            undefined: None,
            far: None,
        }
    }

    /// A repeated definition.
    pub fn add_duplicate(&mut self, fault: LinkFault) -> Result<(), LinkFault>
        ensures { MatchResult result
            (λ _. (self.old.goes_on ≡ true) × (self.new ≡ with_duplicate self.old (Some fault)))
            (λ e. (self.old.goes_on ≡ false) × (e ≡ fault)) }
    {
        keep(self.goes_on, &mut self.duplicate, fault)
    }

    /// The use of a name that means nothing.
    pub fn add_undefined(&mut self, fault: LinkFault) -> Result<(), LinkFault>
        ensures { MatchResult result
            (λ _. (self.old.goes_on ≡ true) × (self.new ≡ with_uses self.old (Some fault) None))
            (λ e. (self.old.goes_on ≡ false) × (e ≡ fault)) }
    {
        keep(self.goes_on, &mut self.undefined, fault)
    }

    /// A use that is too far. It is no end, since a name that means nothing goes before it.
    pub fn add_far(&mut self, fault: LinkFault)
        ensures { self.new ≡ with_uses self.old None (Some fault) }
    {
        if self.far.is_none() {
            self.far = Some(fault);
        }
    }

    /// The first of all in the order in which the kinds are tried.
    pub fn first(&self) -> Option<LinkFault>
        ensures { result ≡ option_or self.now.duplicate
            (option_or self.now.undefined self.now.far) }
    {
        match self.duplicate {
            Some(fault) => Some(fault),
            None => match self.undefined {
                Some(fault) => Some(fault),
                None => self.far,
            },
        }
    }
}
