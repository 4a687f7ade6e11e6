//! Directives, operations, labels and heads of modules.
ghost use Rattle.std.specs.Prelude.{◌≡◌};
ghost use Rattle.m88_isa.specs.Letters.{mnemonic_of};
ghost use Rattle.m88_parse.specs.declared.directive.Directive.TheVariants.{Set};
ghost use Rattle.m88_parse.specs.Fault.{Gives};
ghost use Rattle.m88_parse.specs.Inside.Drafts.{PutsRow};
ghost use Rattle.m88_parse.specs.Inside.Grammar.{read, directive_form};
ghost use Rattle.m88_parse.specs.Inside.Source.{operation_at, labelled_at, head_at, is_label_on, is_head_on, row_at};
ghost use Rattle.m88_parse.specs.Inside.State.{first, second};

use crate::directive::{Directive, directive_of};
use crate::draft::Draft;
use crate::fault::{ParseFault, ParseKind};
use crate::names::is_module;
use crate::parser::Parser;
use crate::shape::shape_of;
use crate::token::What;
use crate::unit::{Body, Statement};
use m88_base::Listed;
use m88_isa::Mnemonic;
use std::alloc::Global;

/// The most that a number can be.
const ANY: u32 = u32::MAX;

/// The mnemonic of a name, if it is one. None begins with a dot, as directives do: those are told from the mnemonics
/// without trying all of them.
fn mnemonic_of(name: &[u8]) -> Option<Mnemonic>
    ensures { result ≡ mnemonic_of name.now }
{
    if let Some(b'.') = name.first() {
        return None;
    }
    Mnemonic::from_text(name)
}

impl<'a> Parser<'a> {
    /// .set: a symbol and its number, into `out`.
    #[tactic(auto, unfolding(crate::specs::Inside::Grammar::read, crate::specs::Inside::Grammar::directive_form))]
    fn set(&mut self, out: &mut Body) -> Result<(), ParseFault>
        ensures { Gives (λ _. out.new) result (read (directive_form Set) self.old) }
    {
        let (name, col) = self.symbol()?;
        self.mark(b',')?;
        let value = self.whole(1 << 31, ANY)?;
        self.close(out, Body::Set { name, col, value })
    }

    /// The operands of a directive, to the end of the line, and the body that they make into `out`.
    #[tactic(auto, unfolding(crate::specs::Inside::Grammar::read, crate::specs::Inside::Grammar::directive_form))]
    fn directive(
        &mut self,
        alloc: Global,
        directive: Directive,
        out: &mut Body,
    ) -> Result<(), ParseFault>
        ensures { Gives (λ _. out.new) result (read (directive_form directive) self.old) }
    {
        match directive {
            Directive::Text => self.close(out, Body::Text),
            Directive::Data => self.close(out, Body::DataSection),
            Directive::At => {
                let address = self.number(ANY)?;
                self.close(out, Body::At(address))
            }
            Directive::Word => {
                let words = self.words_list(alloc)?;
                self.close(out, Body::Word(Listed::new(words)))
            }
            Directive::Half => {
                let halves = self.half_words(alloc)?;
                self.close(out, Body::Half(Listed::new(halves)))
            }
            Directive::Byte => {
                let bytes = self.bytes(alloc)?;
                self.close(out, Body::Byte(Listed::new(bytes)))
            }
            Directive::Ascii => {
                let bytes = self.text(alloc)?;
                self.close(out, Body::Ascii(Listed::new(bytes)))
            }
            Directive::Zero => {
                let count = self.number(ANY)?;
                self.close(out, Body::Zero(count))
            }
            Directive::Align => {
                let alignment = self.alignment()?;
                self.close(out, Body::Align(alignment))
            }
            Directive::Global => {
                let (name, _) = self.symbol()?;
                self.close(out, Body::Global(name))
            }
            Directive::Set => self.set(out),
        }
    }

    /// An operation and its operands, to the end of the line, and the body that they make into `out`.
    #[tactic(auto, unfolding(crate::specs::Inside::Source::operation_at))]
    fn operation(&mut self, alloc: Global, out: &mut Body) -> Result<(), ParseFault>
        ensures { Gives (λ _. out.new) result (operation_at self.old) }
    {
        let Some(What::Name(name)) = self.first() else {
            return Err(self.fault(ParseKind::Syntax));
        };
        if is_module(name) {
            return Err(self.fault(ParseKind::Syntax));
        }
        if let Some(mnemonic) = mnemonic_of(name) {
            self.skip();
            return self.instruction(shape_of(mnemonic), out);
        }
        match directive_of(name) {
            Some(directive) => {
                self.skip();
                self.directive(alloc, directive, out)
            }
            None => Err(self.fault(ParseKind::NoSuchName)),
        }
    }

    /// A label, and the operation behind it if there is one, put into a draft.
    #[tactic(auto, unfolding(crate::specs::Inside::Source::labelled_at))]
    fn labelled(&mut self, alloc: Global, draft: &mut Draft) -> Result<(), ParseFault>
        ensures { PutsRow draft.old draft.new result (labelled_at self.old) }
    {
        let label = self.symbol()?;
        self.skip();
        let line = self.line();
        let mut body = Body::Empty;
        let col = if self.first().is_none() {
            label.1
        } else {
            let place = self.place();
            self.operation(alloc, &mut body)?;
            place
        };
        draft.push(
            alloc,
            Statement {
                line,
                label: Some(label),
                col,
                body,
            },
        )
    }

    /// The head of a module, from its `.module` on, put into a draft.
    #[tactic(auto, unfolding(crate::specs::Inside::Source::head_at))]
    fn head(&mut self, alloc: Global, draft: &mut Draft) -> Result<(), ParseFault>
        ensures { PutsRow draft.old draft.new result (head_at self.old) }
    {
        let line = self.line();
        self.skip();
        let name = self.any_name()?;
        self.end()?;
        draft.begin(alloc, name, line)
    }

    /// Whether a name and a colon come next.
    fn is_label(&self) -> bool
        ensures { result ≡ is_label_on (first self.now) (second self.now) }
    {
        match (self.first(), self.second()) {
            (Some(What::Name(_)), Some(What::Mark(b':'))) => true,
            _ => false,
        }
    }

    /// Whether `.module` comes next.
    fn is_head(&self) -> bool
        ensures { result ≡ is_head_on (first self.now) }
    {
        match self.first() {
            Some(What::Name(name)) => is_module(name),
            _ => false,
        }
    }

    /// What a line with a token says, put into a draft.
    #[tactic(auto, unfolding(crate::specs::Inside::Source::row_at))]
    pub fn row(&mut self, alloc: Global, draft: &mut Draft) -> Result<(), ParseFault>
        ensures { PutsRow draft.old draft.new result (row_at self.old) }
    {
        if self.is_label() {
            return self.labelled(alloc, draft);
        }
        if self.is_head() {
            return self.head(alloc, draft);
        }
        let line = self.line();
        let col = self.place();
        let mut body = Body::Empty;
        self.operation(alloc, &mut body)?;
        draft.push(
            alloc,
            Statement {
                line,
                label: None,
                col,
                body,
            },
        )
    }
}
