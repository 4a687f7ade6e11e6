//! What a line of the input tells.
ghost use Rattle.std.specs.Prelude.{◌≡◌, MatchOption, None, Some};
ghost use Rattle.m88_serving.specs.Lines.{behind_front, last_word, status_in, triple_in, word_after, named_word_in};

use m88_base::{Triple, hex8_of};

/// What the line of the status tells of the processor, in words of 32 bits.
#[derive(Clone, Copy)]
pub struct StatusLine {
    pub epsr: u32,
    pub sxip: u32,
    pub snip: u32,
    pub sfip: u32,
    pub ssbr: u32,
}

/// The status that a line tells.
#[tactic(auto, unfolding(crate::specs::Lines::status_in))]
pub(crate) fn status_in(line: &[u8]) -> Option<StatusLine>
    ensures { result ≡ status_in line.now }
{
    let (epsr, rest) = word_after(b"epsr ", line)?;
    let (sxip, rest) = word_after(b" sxip ", rest)?;
    let (snip, rest) = word_after(b" snip ", rest)?;
    let (sfip, rest) = word_after(b" sfip ", rest)?;
    let ssbr = last_word(b" ssbr ", rest)?;
    Some(StatusLine {
        epsr,
        sxip,
        snip,
        sfip,
        ssbr,
    })
}

/// The words of the transaction that a line tells behind its name.
#[tactic(auto, unfolding(crate::specs::Lines::triple_in))]
pub(crate) fn triple_in(name: &[u8], line: &[u8]) -> Option<Triple>
    ensures { result ≡ triple_in name.now line.now }
{
    let (dmt, rest) = word_after(name, line)?;
    let (dmd, rest) = word_after(b" ", rest)?;
    let dma = last_word(b" ", rest)?;
    Some(Triple { dmt, dmd, dma })
}

/// The byte address and the value of the word of data memory that a line tells.
#[tactic(auto, unfolding(crate::specs::Lines::named_word_in))]
pub(crate) fn named_word_in(line: &[u8]) -> Option<(u32, u32)>
    ensures { result ≡ named_word_in line.now }
{
    let (address, rest) = word_after(b"mem ", line)?;
    let value = last_word(b" ", rest)?;
    if address % 4 == 0 {
        Some((address, value))
    } else {
        None
    }
}

/// The word behind a text that begins another, with nothing behind it: eight hexadecimal digits, the letters in upper
/// case.
#[tactic(auto, unfolding(crate::specs::Lines::last_word))]
pub fn last_word(front: &[u8], text: &[u8]) -> Option<u32>
    ensures { result ≡ last_word front.now text.now }
{
    let (word, behind) = word_after(front, text)?;
    if behind.is_empty() { Some(word) } else { None }
}

/// The word behind a text that begins another, and what stands behind it.
#[tactic(auto, unfolding(crate::specs::Lines::word_after))]
fn word_after<'a>(front: &[u8], text: &'a [u8]) -> Option<(u32, &'a [u8])>
    ensures { MatchOption result (word_after front.now text.now ≡ None)
        (λ p. word_after front.now text.now ≡ Some (p.0, p.1.now)) }
{
    let rest = behind_front(front, text)?;
    if rest.len() < 8 {
        return None;
    }
    let (digits, behind) = rest.split_at(8);
    let word = hex8_of(digits)?;
    Some((word, behind))
}

/// What stands behind a text that begins another.
#[tactic(auto, unfolding(crate::specs::Lines::behind_front))]
fn behind_front<'a>(front: &[u8], text: &'a [u8]) -> Option<&'a [u8]>
    ensures { MatchOption result (behind_front front.now text.now ≡ None)
        (λ rest. behind_front front.now text.now ≡ Some rest.now) }
{
    text.strip_prefix(front)
}
