//! The lines of an input, one after the other.
ghost use Rattle.std.specs.Prelude.{◌≡◌, ◌%◌, All, MatchOption, None, Some, Ok, IfErr, IfOk};
ghost use Rattle.m88_base.specs.Lines.{lines_of};
ghost use Rattle.m88_serving.specs.Cases.{case_in, first_told, words_told};
ghost use Rattle.m88_serving.specs.Lines.{status_in, triple_in};
ghost use Rattle.m88_serving.specs.Inside.Replies.{IsNotOfTheForm, case_of};

use crate::lines::{StatusLine, named_word_in, status_in, triple_in};
use m88_base::{Triple, first_line};
use m88_event::Record;
use std::alloc::Global;

/// A data fault: the record that it left, whose event isn't told and counts as 0, and the words of data memory before,
/// each with its byte address, a multiple of 4, in order of their lines.
#[derive(Drop)]
pub(crate) struct Told {
    pub fault: Record,
    pub words: Vec<(u32, u32)>,
}

/// Why an input isn't read.
#[derive(Clone, Copy)]
pub(crate) enum Unread {
    /// The line of this number, from 1, isn't of the form, or isn't there.
    Form(u64),
    /// There was no memory for the words.
    Memory,
}

/// What an input tells.
#[tactic(auto, unfolding(crate::specs::Cases::case_in))]
pub(crate) fn told_in(alloc: Global, input: &[u8]) -> Result<Told, Unread>
    ensures ok { IfOk result (λ told. case_in (lines_of input.now) ≡ Ok (case_of told)) }
    ensures form { IfErr result (IsNotOfTheForm (case_in (lines_of input.now))) }
    ensures each { IfOk result (λ told. All (λ word. word.0 % 4 ≡ 0) told.words.items) }
{
    let Some((status, rest)) = first_status(input) else {
        return Err(Unread::Form(1));
    };
    let Some((t0, rest)) = first_triple(b"t0 ", rest) else {
        return Err(Unread::Form(2));
    };
    let Some((t1, rest)) = first_triple(b"t1 ", rest) else {
        return Err(Unread::Form(3));
    };
    let Some((t2, rest)) = first_triple(b"t2 ", rest) else {
        return Err(Unread::Form(4));
    };
    let words = words_in(alloc, rest)?;
    Ok(Told {
        fault: record_with(&status, [t0, t1, t2]),
        words,
    })
}

/// The record of a status and three transactions.
fn record_with(status: &StatusLine, triples: [Triple; 3]) -> Record
    ensures { result ≡ record {
      event = 0;
      epsr = status.now.epsr;
      sxip = status.now.sxip;
      snip = status.now.snip;
      sfip = status.now.sfip;
      ssbr = status.now.ssbr;
      triples = triples;
    } }
{
    Record {
        event: 0,
        epsr: status.epsr,
        sxip: status.sxip,
        snip: status.snip,
        sfip: status.sfip,
        ssbr: status.ssbr,
        triples,
    }
}

/// The status that the first line tells, and what is left behind that.
#[tactic(auto, unfolding(crate::specs::Cases::first_told))]
fn first_status(rest: &[u8]) -> Option<(StatusLine, &[u8])>
    ensures { MatchOption result (first_told status_in (lines_of rest.now) ≡ None)
        (λ p. first_told status_in (lines_of rest.now) ≡ Some (p.0, lines_of p.1.now)) }
{
    if rest.is_empty() {
        return None;
    }
    let (line, behind) = first_line(rest);
    let status = status_in(line)?;
    Some((status, behind))
}

/// The transaction that the first line tells behind its name, and what is left behind that.
#[tactic(auto, unfolding(crate::specs::Cases::first_told))]
fn first_triple<'a>(name: &[u8], rest: &'a [u8]) -> Option<(Triple, &'a [u8])>
    ensures { MatchOption result (first_told (triple_in name.now) (lines_of rest.now) ≡ None)
        (λ p. first_told (triple_in name.now) (lines_of rest.now) ≡ Some (p.0, lines_of p.1.now)) }
{
    if rest.is_empty() {
        return None;
    }
    let (line, behind) = first_line(rest);
    let triple = triple_in(name, line)?;
    Some((triple, behind))
}

/// The words that the lines from line 5 on tell.
fn words_in(alloc: Global, lines: &[u8]) -> Result<Vec<(u32, u32)>, Unread>
    ensures ok { IfOk result (λ words. words_told 5 (lines_of lines.now) ≡ Ok words.items) }
    ensures form { IfErr result (IsNotOfTheForm (words_told 5 (lines_of lines.now))) }
    ensures each { IfOk result (λ words. All (λ word. word.0 % 4 ≡ 0) words.items) }
{
    let mut words = Vec::new(alloc);
    let mut rest = lines;
    let mut number: u64 = 5;
    while !rest.is_empty() {
        let (line, behind) = first_line(rest);
        let Some(word) = named_word_in(line) else {
            return Err(Unread::Form(number));
        };
        let Ok(()) = words.push(word) else {
            return Err(Unread::Memory);
        };
        rest = behind;
        number += 1;
    }
    Ok(words)
}
