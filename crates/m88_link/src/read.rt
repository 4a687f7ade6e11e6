//! Object texts read.
ghost use Rattle.std.specs.Prelude.{◌≡◌, ◌<◌, ◌^◌, ◌⊎◌, ℕ, IfErr, IfOk, List, MatchResult, length};
ghost use Rattle.m88_base.specs.OneVerdict.{HasOneVerdict};
ghost use Rattle.m88_link.specs.declared.object.Object.{Object as ObjectValue};
ghost use Rattle.m88_link.specs.Inside.Drafts.{AnswersText};
ghost use Rattle.m88_link.specs.ObjectRead.{IsFormLine, IsRangeLine, IsSoundText, IsTextFault, RefusesText};
ghost use Rattle.m88_link.specs.declared.object_fault.ObjectFault.TheVariants as fault;

use crate::object::Object;
use crate::object_fault::ObjectFault;
use crate::object_lines::parse_objects;
use crate::walk::{Walked, walk_objects};
use std::alloc::Global;

/// The sound objects of a text, or its fault.
fn read(alloc: Global, text: &[u8]) -> Result<Vec<Object>, ObjectFault>
    requires { length text.now < 2 ^ 31 }
    ensures { AnswersText (λ v. v.items) text.now result }
{
    let objects = parse_objects(alloc, text)?;
    match walk_objects(alloc, objects.as_slice())? {
        Walked::Sound(_) => Ok(objects),
        Walked::Unsound(lines) => Err(ObjectFault::Range {
            line: lines as u32 + 1,
        }),
    }
}

/// The objects whose text this is, as `object_text` writes it: one or more, all sound. A text of no
/// objects is refused at the first line that the text of no objects, sound or not, continues; the text
/// of objects that aren't all sound at the first line that gives a section, a symbol or a relocation by
/// which its object isn't.
pub fn read_objects(alloc: Global, text: &[u8]) -> Result<Vec<Object>, ObjectFault>
    requires { length text.now < 2 ^ 31 }

    // What is read is the sound objects whose text it is, and each text of sound objects is read so: writing
    // what was read gives the text back, and reading what was written gives the objects back.
    ensures read { IfOk result (λ v. IsSoundText v.items text.now) }
    ensures written { (objects : List ObjectValue) → IsSoundText objects text.now
        → MatchResult result (λ v. v.items ≡ objects) (λ e. e ≡ fault.Memory) }

    // What is refused is refused at its line, and each line at which it is to be refused is told.
    ensures refused { IfErr result (λ e. (e ≡ fault.Memory) ⊎ IsTextFault text.now e) }
    ensures form { (n : ℕ) → IsFormLine text.now n → RefusesText result (fault.Form n) }
    ensures range { (n : ℕ) → IsRangeLine text.now n → RefusesText result (fault.Range n) }

    // A text is that of sound objects or has a first fault, never both, and one at most.
    ensures one_verdict { HasOneVerdict (λ objects. IsSoundText objects text.now)
        (IsTextFault text.now) }
{
    read(alloc, text)
}
