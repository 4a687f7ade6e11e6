//! Texts, and lists of operands with commas between them.
ghost use Rattle.std.specs.Prelude.{◌≡◌, false, MatchResult, if◌then◌else◌};
ghost use Rattle.m88_parse.specs.Fault.{Gives, out_of_memory};
ghost use Rattle.m88_parse.specs.Language.Bytes.{comma_mark};
ghost use Rattle.m88_parse.specs.Inside.Grammar.{list_at, word_item_at, a_half, a_byte, part_item_at};
ghost use Rattle.m88_parse.specs.Inside.Slots.{ReadsSlot, text_at};
ghost use Rattle.m88_parse.specs.Inside.State.{is_next_mark, past};
ghost use Rattle.m88_parse.specs.Inside.Tokens.{text_bytes};

use crate::fault::{ParseFault, ParseKind};
use crate::parser::Parser;
use crate::scan::{begins_escape, escape_value};
use crate::token::What;
use crate::unit::Value;
use m88_base::Kind;
use std::alloc::Global;

/// The bytes that stand for the inside of a text.
fn text_bytes(alloc: Global, inside: &[u8]) -> Result<Vec<u8>, ParseFault>
    ensures { MatchResult result (λ v. v.items ≡ text_bytes false inside.now)
        (λ e. e ≡ out_of_memory) }
{
    let mut out = Vec::new(alloc);
    let mut escaped = false;
    for b in inside {
        let begins = begins_escape(escaped, *b);
        if !begins {
            out.push(if escaped { escape_value(*b) } else { *b })?;
        }
        escaped = begins;
    }
    Ok(out)
}

impl<'a> Parser<'a> {
    /// The bytes of a text.
    #[tactic(auto, unfolding(crate::specs::Inside::Slots::text_at))]
    pub fn text(&mut self, alloc: Global) -> Result<Vec<u8>, ParseFault>
        ensures { Gives (λ v. (v.items, self.new)) result (text_at self.old) }
    {
        let Some(What::Text(inside)) = self.first() else {
            return Err(self.fault(ParseKind::Syntax));
        };
        let bytes = text_bytes(alloc, inside)?;
        self.skip();
        Ok(bytes)
    }

    /// An item of `.half`.
    fn half_word(&mut self) -> Result<u16, ParseFault>
        ensures { ReadsSlot self.old self.new result (part_item_at a_half self.old) }
    {
        Ok((self.whole(0x8000, 0xFFFF)? % 0x10000) as u16)
    }

    /// An item of `.byte`.
    fn byte(&mut self) -> Result<u8, ParseFault>
        ensures { ReadsSlot self.old self.new result (part_item_at a_byte self.old) }
    {
        Ok((self.whole(0x80, 0xFF)? % 0x100) as u8)
    }

    /// The most items that the tokens which are left can be, one at least: each takes a token, and a comma stands
    /// between two.
    fn most_items(&self) -> usize {
        self.left() / 2 + 1
    }

    /// The items of `.word`.
    pub fn words_list(&mut self, alloc: Global) -> Result<Vec<Value>, ParseFault>
        ensures { Gives (λ v. (v.items, self.new)) result (list_at word_item_at self.old) }
    {
        let mut out = Vec::with_capacity(alloc, self.most_items())?;
        let mut more = true;
        while more {
            let value = self.value(Kind::Abs32)?;
            out.push(value)?;
            more = self.comma();
        }
        Ok(out)
    }

    /// The items of `.half`.
    pub fn half_words(&mut self, alloc: Global) -> Result<Vec<u16>, ParseFault>
        ensures { Gives (λ v. (v.items, self.new)) result (list_at (part_item_at a_half) self.old) }
    {
        let mut out = Vec::with_capacity(alloc, self.most_items())?;
        let mut more = true;
        while more {
            let value = self.half_word()?;
            out.push(value)?;
            more = self.comma();
        }
        Ok(out)
    }

    /// The items of `.byte`.
    pub fn bytes(&mut self, alloc: Global) -> Result<Vec<u8>, ParseFault>
        ensures { Gives (λ v. (v.items, self.new)) result (list_at (part_item_at a_byte) self.old) }
    {
        let mut out = Vec::with_capacity(alloc, self.most_items())?;
        let mut more = true;
        while more {
            let value = self.byte()?;
            out.push(value)?;
            more = self.comma();
        }
        Ok(out)
    }

    /// Passes over a comma, and says whether there was one.
    fn comma(&mut self) -> bool
        ensures value { result ≡ is_next_mark comma_mark self.old }
        ensures after { self.new
            ≡ (if is_next_mark comma_mark self.old then past self.old else self.old) }
    {
        let comma = self.is_next(b',');
        if comma {
            self.skip();
        }
        comma
    }
}
