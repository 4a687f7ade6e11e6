//! The judge: what a handler left, compared with what the monitor's own service leaves.
#![tactic(auto)]

ghost use Rattle.std.specs.Prelude.{◌≡◌, ◌*◌, ◌^◌, ◌<◌, IfSome};
ghost use Rattle.m88_base.specs.Pages.{IsPage, page_count};
ghost use Rattle.std.specs.Option.{option_or};
ghost use Rattle.m88_isa.specs.Held.{first_from};
ghost use Rattle.m88_mem.specs.DataBus.{absent_of, bus_of};
ghost use Rattle.m88_handler.specs.Handled.{handling_of, wanted_of};
ghost use Rattle.m88_handler.specs.Judging.{difference, difference_at, differs_at, following_seen, left_by, next_seen, page_difference, page_differs, register_difference, register_differs, word_difference, word_differs};
ghost use Rattle.m88_handler.specs.declared.judging.Place.TheVariants.{Following, Next, Status};

use crate::controls::{is_valid_slot, word_of};
use crate::handler::Handler;
use crate::memory::presence;
use crate::serving::Wanted;
use m88_base::{PAGE_BYTES, PAGE_COUNT, PAGE_WORDS};
use m88_ctrl::{Control, cr};
use m88_mem::Memory;

/// What is compared of a handler and the monitor's service.
#[derive(Clone, Copy, PartialEq, Eq, Debug)]
pub enum Place {
    /// A register, by its number.
    Register(u32),
    /// A word of the program's memory, by its byte address.
    Word(u32),
    /// A page, by its first byte address: 1 where it is present, 0 where it is absent.
    Page(u32),
    /// EPSR, the status that the program goes on with.
    Status,
    /// SNIP without E: the next instruction, or 0 where it is passed over.
    Next,
    /// SFIP without E: the one that follows it.
    Following,
}

/// A difference: where it is, what the handler left there, and what the service leaves.
#[derive(Clone, Copy, PartialEq, Eq, Debug)]
pub struct Difference {
    pub place: Place,
    pub left: u32,
    pub wanted: u32,
}

/// The first difference of what a handler left from what the service leaves, if there is one.
#[tactic(auto, unfolding(crate::specs::Judging::difference, crate::specs::Handled::handling_of))]
pub(crate) fn first_difference(left: &Handler, wanted: &Wanted) -> Option<Difference>
    requires { left.now.user.image ≡ wanted.now.memory.image }
    ensures { result ≡ difference (left_by (handling_of left.now)) (wanted_of wanted.now) }
{
    if let Some(difference) = register_difference(&left.regs, wanted.regs.numbers()) {
        return Some(difference);
    }
    if let Some(difference) = word_difference(&left.user, &wanted.memory) {
        return Some(difference);
    }
    if let Some(difference) = page_difference(&left.user, &wanted.memory) {
        return Some(difference);
    }
    control_difference(&left.control, &wanted.control)
}

/// The first difference of the status and of the two slots.
fn control_difference(left: &Control, wanted: &Control) -> Option<Difference>
    ensures { result ≡ option_or (difference_at Status left.now.epsr wanted.now.epsr)
        (option_or (difference_at Next (next_seen left.now) (next_seen wanted.now))
        (difference_at Following (following_seen left.now) (following_seen wanted.now))) }
{
    let (epsr, wanted_epsr) = (word_of(left, cr::EPSR), word_of(wanted, cr::EPSR));
    if epsr != wanted_epsr {
        return Some(differs_at(Place::Status, epsr, wanted_epsr));
    }
    let (next, wanted_next) = (next_seen(left), next_seen(wanted));
    if next != wanted_next {
        return Some(differs_at(Place::Next, next, wanted_next));
    }
    let (following, wanted_following) = (following_seen(left), following_seen(wanted));
    if following != wanted_following {
        return Some(differs_at(Place::Following, following, wanted_following));
    }
    None
}

/// A difference at a place.
fn differs_at(place: Place, left: u32, wanted: u32) -> Difference
    ensures { result ≡ differs_at place left wanted }
{
    Difference {
        place,
        left,
        wanted,
    }
}

/// The next instruction behind a return, as a word without E.
fn next_seen(control: &Control) -> u32
    ensures { result ≡ next_seen control.now }
{
    let snip = word_of(control, cr::SNIP);
    if is_valid_slot(snip) {
        snip / 4 * 4 + 2
    } else {
        0
    }
}

/// The one that follows it, as a word without E.
fn following_seen(control: &Control) -> u32
    ensures { result ≡ following_seen control.now }
{
    word_of(control, cr::SFIP) / 4 * 4 + 2
}

/// The first register that differs.
fn register_difference(left: &[u32; 32], wanted: &[u32; 32]) -> Option<Difference>
    ensures { result ≡ register_difference left.now wanted.now }
{
    let r = register_that_differs(left, wanted)?;
    Some(differs_at(Place::Register(r as u32), left[r], wanted[r]))
}

/// The number of the first register that differs.
fn register_that_differs(left: &[u32; 32], wanted: &[u32; 32]) -> Option<usize>
    ensures number { result ≡ first_from 1 31 (register_differs left.now wanted.now) }
    ensures within { IfSome result (λ r. r < 32) }
{
    for r in 1..32 {
        if register_differs(left, wanted, r) {
            return Some(r);
        }
    }
    None
}

/// Whether a register differs.
fn register_differs(left: &[u32; 32], wanted: &[u32; 32], r: usize) -> bool
    requires { r < 32 }
    ensures { result ≡ register_differs left.now wanted.now r }
{
    left[r] != wanted[r]
}

/// The first word that differs.
fn word_difference(left: &Memory, wanted: &Memory) -> Option<Difference>
    requires { left.now.image ≡ wanted.now.image }
    ensures { result ≡ word_difference (bus_of left.now) (bus_of wanted.now) }
{
    let place = word_that_differs(left, wanted)?;
    Some(differs_at(
        Place::Word(4 * place),
        left.word(4 * place),
        wanted.word(4 * place),
    ))
}

/// The place of the first word that differs, among all words.
fn word_that_differs(left: &Memory, wanted: &Memory) -> Option<u32>
    requires { left.now.image ≡ wanted.now.image }
    ensures place { result ≡ first_from 0 (2 ^ 30)
        (word_differs (bus_of left.now) (bus_of wanted.now)) }
    ensures within { IfSome result (λ place. place < 2 ^ 30) }
{
    for page in 0..PAGE_COUNT as u32 {
        if let Some(place) = word_of_page(left, wanted, page) {
            return Some(place);
        }
    }
    None
}

/// The place of the first word of a page that differs, among all words. Where the page is ready in neither memory, all
/// its words are those of the image.
fn word_of_page(left: &Memory, wanted: &Memory, page: u32) -> Option<u32>
    requires page { IsPage page }
    requires image { left.now.image ≡ wanted.now.image }
    ensures place { result ≡ first_from (1024 * page) 1024
        (word_differs (bus_of left.now) (bus_of wanted.now)) }
    ensures within { IfSome result (λ place. place < 2 ^ 30) }
{
    if !left.is_ready(page * PAGE_BYTES) && !wanted.is_ready(page * PAGE_BYTES) {
        return None;
    }
    word_in_page_that_differs(left, wanted, page)
}

/// The same, word by word.
fn word_in_page_that_differs(left: &Memory, wanted: &Memory, page: u32) -> Option<u32>
    requires { IsPage page }
    ensures place { result ≡ first_from (1024 * page) 1024
        (word_differs (bus_of left.now) (bus_of wanted.now)) }
    ensures within { IfSome result (λ place. place < 2 ^ 30) }
{
    for offset in 0..PAGE_WORDS {
        let place = page * PAGE_WORDS + offset;
        if word_differs(left, wanted, place) {
            return Some(place);
        }
    }
    None
}

/// Whether a word differs, by its place among all words.
fn word_differs(left: &Memory, wanted: &Memory, place: u32) -> bool
    requires { place < 2 ^ 30 }
    ensures { result ≡ word_differs (bus_of left.now) (bus_of wanted.now) place }
{
    left.word(4 * place) != wanted.word(4 * place)
}

/// The first page whose presence differs.
fn page_difference(left: &Memory, wanted: &Memory) -> Option<Difference>
    ensures { result ≡ page_difference (absent_of left.now) (absent_of wanted.now) }
{
    let page = page_that_differs(left, wanted)?;
    Some(differs_at(
        Place::Page(page * PAGE_BYTES),
        presence(left.is_absent(page)),
        presence(wanted.is_absent(page)),
    ))
}

/// The number of the first page whose presence differs.
fn page_that_differs(left: &Memory, wanted: &Memory) -> Option<u32>
    ensures number { result ≡ first_from 0 page_count
        (page_differs (absent_of left.now) (absent_of wanted.now)) }
    ensures within { IfSome result IsPage }
{
    for page in 0..PAGE_COUNT as u32 {
        if page_differs(left, wanted, page) {
            return Some(page);
        }
    }
    None
}

/// Whether the presence of a page differs.
fn page_differs(left: &Memory, wanted: &Memory, page: u32) -> bool
    requires { IsPage page }
    ensures { result ≡ page_differs (absent_of left.now) (absent_of wanted.now) page }
{
    presence(left.is_absent(page)) != presence(wanted.is_absent(page))
}
