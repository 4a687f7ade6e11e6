//! The directives beside `.module`, by name.
ghost use Rattle.std.specs.Prelude.{◌≡◌};
ghost use Rattle.m88_parse.specs.Inside.Directives.{all_directives, directive_text, directive_of};

/// A directive beside `.module`.
#[derive(Clone, Copy)]
pub(crate) enum Directive {
    Text,
    Data,
    At,
    Word,
    Half,
    Byte,
    Ascii,
    Zero,
    Align,
    Global,
    Set,
}

/// All directives, those first that stand on most lines.
const DIRECTIVES: [Directive; 11] = [
    Directive::Word,
    Directive::Byte,
    Directive::At,
    Directive::Half,
    Directive::Ascii,
    Directive::Zero,
    Directive::Align,
    Directive::Text,
    Directive::Data,
    Directive::Global,
    Directive::Set,
];

/// The name of a directive.
#[tactic(auto, unfolding(crate::specs::Inside::Directives::directive_text))]
fn text_of(directive: Directive) -> &'static str
    ensures { result.now ≡ directive_text directive }
{
    match directive {
        Directive::Text => ".text",
        Directive::Data => ".data",
        Directive::At => ".at",
        Directive::Word => ".word",
        Directive::Half => ".half",
        Directive::Byte => ".byte",
        Directive::Ascii => ".ascii",
        Directive::Zero => ".zero",
        Directive::Align => ".align",
        Directive::Global => ".global",
        Directive::Set => ".set",
    }
}

/// The directive of a name, if there is one.
#[tactic(auto, unfolding(crate::specs::Inside::Directives::all_directives, crate::specs::Inside::Directives::directive_text))]
pub(crate) fn directive_of(name: &[u8]) -> Option<Directive>
    ensures { result ≡ directive_of name.now }
{
    match name {
        // It stands on most lines, and is told without a call.
        b".word" => Some(Directive::Word),
        _ => DIRECTIVES
            .iter()
            .copied()
            .find(|d| text_of(*d).as_bytes() == name),
    }
}
