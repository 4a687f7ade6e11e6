//! What a program answers to its input, handed to its sink.
ghost use Rattle.std.specs.Prelude.{◌≡◌, IfOk, None, false, length, true};
ghost use Rattle.std.specs.Io.KnownBytes.{Appends};
ghost use Rattle.m88_base.specs.Calls.{CallsWithin};
ghost use Rattle.m88_base.specs.Causes.{Rose};
ghost use Rattle.m88_base.specs.Outside.{AppendsPart};
ghost use Rattle.m88_base.specs.Reply.{AnswersRefusal, IsRefusalOf, ShowsLineOf, accepts, refusal_of};
ghost use Rattle.m88_base.specs.Status.{IsAnswered, WritesNothing};

use crate::failing::NoMemory;
use crate::refused::{Refusal, Refused};
use crate::sink::Sink;
use crate::status::Status;
use crate::writing::write_all;
use std::alloc::Global;

/// How a program ended, and what it refused: Some where the status is Refused, and only there.
#[derive(Debug, Drop)]
pub struct Answer {
    pub status: Status,
    pub refused: Option<Refused>,
}

impl Answer {
    /// The answer of a program that refused nothing.
    pub fn unrefused(status: Status) -> Answer
        ensures { result ≡ record { status = status; refused = None } }
    {
        Answer {
            status,
            refused: None,
        }
    }
}

/// What is written for an input, and its refusal: None where the input is accepted.
#[derive(Debug, Drop)]
pub struct Reply {
    pub text: Vec<u8>,
    pub refused: Option<Refused>,
}

impl Reply {
    /// This reply, whose refusal shows the line of the input that it is at.
    pub fn showing(self, alloc: Global, input: &[u8]) -> Result<Reply, NoMemory>
        ensures same { IfOk result (λ reply. reply.text ≡ self.text) }
        ensures told { IfOk result (λ reply. refusal_of reply ≡ refusal_of self) }
        ensures shown { IfOk result (ShowsLineOf input.now) }
    {
        let Reply { text, refused } = self;
        let refused = match refused {
            Some(refused) => Some(refused.showing(alloc, input)?),
            None => None,
        };
        Ok(Reply { text, refused })
    }

    /// Hands the text to a sink whole, and answers how the program ended with that: the input was accepted, it was
    /// refused, or the sink failed.
    pub fn write_to<K: Sink>(self, sink: &mut K) -> Answer
        ensures done { result.status ≡ Status.Done → (accepts self ≡ true)
            × Appends (K.held sink.old) (K.held sink.new) self.text.items }
        ensures refused { result.status ≡ Status.Refused → (accepts self ≡ false)
            × Appends (K.held sink.old) (K.held sink.new) self.text.items }
        ensures part { result.status ≡ Status.SinkFault
            → AppendsPart (K.held sink.old) (K.held sink.new) self.text.items }
        ensures sink_fault { result.status ≡ Status.SinkFault
            → Rose (K.faults sink.old) (K.faults sink.new) }
        ensures unfailed { IsAnswered result.status → K.faults sink.new ≡ K.faults sink.old }
        ensures calls { CallsWithin (length self.text.items)
            (K.calls sink.old) (K.calls sink.new) }
        ensures written { ¬ WritesNothing result.status }

        // The refusal is answered exactly where the input was refused.
        ensures told { AnswersRefusal self result }
    {
        if write_all(sink, self.text.as_slice()).is_err() {
            return Answer::unrefused(Status::SinkFault);
        }
        let status = if self.refused.is_none() {
            Status::Done
        } else {
            Status::Refused
        };
        Answer {
            status,
            refused: self.refused,
        }
    }
}

/// The reply that accepts an input, and what it says.
pub fn accept(text: Vec<u8>) -> Reply
    ensures { result ≡ record { text = text; refused = None } }
{
    Reply {
        text,
        refused: None,
    }
}

/// The reply that refuses an input with its line.
pub fn refuse(alloc: Global, refusal: &Refusal) -> Result<Reply, NoMemory>
    ensures { IfOk result (IsRefusalOf refusal.now) }
{
    let text = refusal.text(alloc)?;
    let refused = Refused::unshown(refusal.copy(alloc)?);
    Ok(Reply {
        text,
        refused: Some(refused),
    })
}
