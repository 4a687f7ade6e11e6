//! The image of a unit.
ghost use Rattle.std.specs.Prelude.{◌≡◌, ◌⊎◌, ℕ, Option, IfErr, IfOk, OnOk};
ghost use Rattle.std.specs.Result.{IsErrAnd};
ghost use Rattle.m88_base.specs.Image.{byte_at};
ghost use Rattle.m88_base.specs.OneVerdict.{HasOneFaultUnless};
ghost use Rattle.m88_isa.specs.ImageProgram.{IsInstructionAt};
ghost use Rattle.m88_isa.specs.declared.instr.Instr.{Instr as Instruction};
ghost use Rattle.m88_parse.specs.WellFormed.{IsWellFormed};
ghost use Rattle.m88_link.specs.Linked.{IsLinked};
ghost use Rattle.m88_asm.specs.Accepted.{IsAcceptedUnit, IsFirstUnitFault, IsOutOfMemory, IsUnitFault};
ghost use Rattle.m88_asm.specs.Images.{IsUnitImage, IsUnitInstruction};
ghost use Rattle.m88_asm.specs.Inside.Answered.{AnswersUnit};
ghost use Rattle.m88_asm.specs.Units.{unit_layout};
ghost use Rattle.m88_asm.specs.declared.fault.UnitFault.{UnitFault as Fault};

use crate::fault::UnitFault;
use crate::objects::consume_unit;
use m88_base::Image;
use m88_link::link;
use m88_parse::Unit;
use std::alloc::Global;

/// The image of a unit, assembled and linked, or the first reason why it has none. Text stands from
/// 0x00001000 on and data in the pages behind it, each module's part at the next multiple of 8. The unit
/// starts at `_start`, or at 0x00001000 where that isn't defined.
pub fn image_of(alloc: Global, unit: Unit) -> Result<Image, UnitFault>
    requires { IsWellFormed unit }
    // The image has at each address the byte that the unit's statements give there, and no other, and the
    // unit's start.
    ensures image { IfOk result (IsUnitImage unit) }
    // The instruction at an address of the unit, placed there or read from its bytes, is what the image's
    // bytes are the word of.
    ensures instructions { IfOk result (λ image. (a : ℕ) (instruction : Option Instruction)
        → IsUnitInstruction unit a instruction
        → IsInstructionAt (byte_at image) a instruction) }
    // By sections: the image is that of the unit's layout.
    ensures linked { IfOk result (IsLinked (unit_layout unit)) }
    // Only what is accepted has an image, and that has one, unless memory runs out.
    ensures accepted { OnOk result (IsAcceptedUnit unit) }
    ensures only { IsAcceptedUnit unit → IfErr result IsOutOfMemory }
    // A fault is the first one of the statements, else the refusal of the layout, or memory ran out; and the
    // first fault of a unit is answered.
    ensures fault { IfErr result (IsUnitFault unit) }
    ensures refused { (e : Fault) → IsFirstUnitFault unit e
        → IsErrAnd result (λ fault. IsOutOfMemory fault ⊎ (fault ≡ e)) }
    // A unit is accepted or has a first fault, never both, and one at most.
    ensures one_verdict { HasOneFaultUnless (IsAcceptedUnit unit) (IsFirstUnitFault unit) }
{
    image_or_fault(alloc, unit)
}

/// The image of a unit, or the first reason why it has none.
fn image_or_fault(alloc: Global, unit: Unit) -> Result<Image, UnitFault>
    requires { IsWellFormed unit }
    ensures { AnswersUnit unit result }
{
    let objects = match consume_unit(alloc, unit) {
        Ok(objects) => objects,
        Err(fault) => return Err(UnitFault::Asm(fault)),
    };
    match link(alloc, &objects) {
        Ok(image) => Ok(image),
        Err(fault) => Err(UnitFault::Link(fault)),
    }
}
