//! The objects of a unit.
ghost use Rattle.std.specs.Prelude.{◌≡◌, ◌⊎◌, ◌^◌, ◌<◌, ℕ, [], Some, count_by, is_some, length, map, slice_get, take, Contains, IfErr, IfOk, OnOk};
ghost use Rattle.std.specs.List.{All, sum_by};
ghost use Rattle.m88_parse.specs.WellFormed.{IsFormedModule, IsFormedStatement, IsWellFormed};
ghost use Rattle.m88_link.specs.Sound.{IsSound};
ghost use Rattle.m88_base.specs.Image.{IsImage, ProgramImage};
ghost use Rattle.m88_link.specs.Layout.{layout_of};
ghost use Rattle.m88_link.specs.Linked.{IsLinked};
ghost use Rattle.m88_link.specs.Refusal.{IsLinkable, IsRefused};
ghost use Rattle.m88_link.specs.declared.fault.LinkFault.{LinkFault as Refusal};
ghost use Rattle.m88_parse.specs.declared.unit.Module.{Module as Part};
ghost use Rattle.m88_asm.specs.Counters.{Located, at_begin, located, offset_of, section_of};
ghost use Rattle.m88_asm.specs.Inside.Drafts.{empty_growth, with_statements};
ghost use Rattle.m88_asm.specs.Inside.Firsts.{AnswersFirst};
ghost use Rattle.m88_asm.specs.Fault.{memory_ran_out};
ghost use Rattle.m88_asm.specs.Faults.{IsAssembled, statements_fault, module_fault, modules_fault, unit_fault};
ghost use Rattle.m88_asm.specs.Images.{IsUnitImage};
ghost use Rattle.m88_asm.specs.Objects.{lines_in, object_of, objects_of};
ghost use Rattle.m88_asm.specs.Units.{length_in, unit_layout};

use crate::assembly::Assembly;
use crate::exports::declared;
use crate::fault::AsmFault;
use m88_link::Object;
use m88_parse::{Module, Statement, Unit};
use std::alloc::Global;

/// The number of statements that have a label.
fn label_count(statements: &[Statement]) -> usize
    ensures { result ≡ count_by (λ x. is_some x.label) statements.now }
{
    let mut count = 0;
    for x in statements {
        if x.label.is_some() {
            count += 1;
        }
    }
    count
}

/// What a module's statements grow to, or the first fault.
fn lay_out(alloc: Global, line: u32, statements: &[Statement]) -> Result<Assembly, AsmFault>
    requires formed { All IsFormedStatement statements.now }
    requires few { length statements.now < 2 ^ 31 }
    ensures { AnswersFirst result (statements_fault [] (located at_begin statements.now))
        (λ a. a ≡ with_statements (empty_growth line) statements.now) }
{
    let mut assembly = Assembly::new(alloc, line, label_count(statements))?;
    for x in statements {
        match assembly.add(alloc, x) {
            Ok(()) => {}
            Err(fault) => return Err(fault),
        }
    }
    Ok(assembly)
}

/// The object of a module, or the first fault of its statements.
fn object(alloc: Global, module: &Module) -> Result<Object, AsmFault>
    requires formed { IsFormedModule «module».now }
    requires few { length «module».now.statements < 2 ^ 31 }
    ensures { AnswersFirst result (module_fault «module».now)
        (λ o. (o ≡ object_of «module».now) × IsSound o) }
{
    let statements = module.statements.as_slice();
    let names = declared(alloc, statements)?;
    match lay_out(alloc, module.line, statements) {
        Ok(assembly) => Ok(assembly.into_object(alloc, module.name, &names)?),
        Err(fault) => Err(fault),
    }
}

/// The objects of modules, or the first fault.
fn objects(alloc: Global, modules: &[Module]) -> Result<Vec<Object>, AsmFault>
    requires formed { All IsFormedModule modules.now }
    requires few { sum_by (λ m. length m.statements) modules.now < 2 ^ 31 }
    ensures { AnswersFirst result (modules_fault modules.now)
        (λ v. (v.items ≡ map object_of modules.now) × All IsSound v.items) }
{
    let mut out = Vec::new(alloc);
    for part in modules {
        match object(alloc, part) {
            Ok(object) => out.push(object)?,
            Err(fault) => return Err(fault),
        }
    }
    Ok(out)
}

/// What a module's statements, which are handed over, grow to, or the first fault.
fn consume_statements(
    alloc: Global,
    line: u32,
    statements: Vec<Statement>,
) -> Result<Assembly, AsmFault>
    requires formed { All IsFormedStatement statements.items }
    requires few { length statements.items < 2 ^ 31 }
    ensures { AnswersFirst result (statements_fault [] (located at_begin statements.items))
        (λ a. a ≡ with_statements (empty_growth line) statements.items) }
{
    let mut assembly = Assembly::new(alloc, line, label_count(&statements))?;
    for x in statements {
        match assembly.consume(alloc, x) {
            Ok(()) => {}
            Err(fault) => return Err(fault),
        }
    }
    Ok(assembly)
}

/// The object of a module that is handed over, or the first fault of its statements.
fn consume_module(alloc: Global, module: Module) -> Result<Object, AsmFault>
    requires formed { IsFormedModule «module» }
    requires few { length «module».statements < 2 ^ 31 }
    ensures { AnswersFirst result (module_fault «module»)
        (λ o. (o ≡ object_of «module») × IsSound o) }
{
    let Module {
        name,
        line,
        statements,
    } = module;
    let statements = statements.into_items();
    let names = declared(alloc, &statements)?;
    match consume_statements(alloc, line, statements) {
        Ok(assembly) => Ok(assembly.into_object(alloc, name, &names)?),
        Err(fault) => Err(fault),
    }
}

/// The objects of a unit that is handed over, or the first fault: each list of bytes that begins its section goes
/// there uncopied, and the statements of a module are let go behind its layout.
pub(crate) fn consume_unit(alloc: Global, unit: Unit) -> Result<Vec<Object>, AsmFault>
    requires { IsWellFormed unit }
    ensures { AnswersFirst result (unit_fault unit)
        (λ v. (v.items ≡ objects_of unit) × All IsSound v.items) }
{
    let mut objects = Vec::new(alloc);
    for part in unit.modules.into_items() {
        match consume_module(alloc, part) {
            Ok(object) => objects.push(object)?,
            Err(fault) => return Err(fault),
        }
    }
    Ok(objects)
}

/// The objects of a unit, one for each module in order, or the first statement's fault: a name that its
/// module has defined before, words off their alignment, or in a section more than 1,048,576 bytes or a byte
/// past address 0xFFFFFFFF.
pub fn assemble(alloc: Global, unit: &Unit) -> Result<Vec<Object>, AsmFault>
    requires { IsWellFormed unit.now }
    ensures objects { IfOk result (λ v. v.items ≡ objects_of unit.now) }
    ensures sound { IfOk result (λ v. All IsSound v.items) }
    // Only a unit none of whose statements meets a fault has objects.
    ensures accepted { OnOk result (IsAssembled unit.now) }
    // A fault is the first one, or memory ran out.
    ensures fault { IfErr result (λ e. (e ≡ memory_ran_out)
        ⊎ (unit_fault unit.now ≡ Some e)) }
    // Linking looks at the objects as it would at the unit: their layout is the unit's where it can be
    // linked, and a refusal of it is the unit's.
    ensures layout { IfOk result (λ v. IsLinkable (layout_of v.items)
        → layout_of v.items ≡ unit_layout unit.now) }
    ensures refusal { IfOk result (λ v. (e : Refusal) → IsRefused (layout_of v.items) e
        → IsRefused (unit_layout unit.now) e) }
    // An image that the objects are linked into is the unit's.
    ensures linked { IfOk result (λ v. (image : ProgramImage) → IsImage image
        → IsLinkable (layout_of v.items) → IsLinked (layout_of v.items) image
        → IsUnitImage unit.now image) }
    // A statement of a module stands in its section behind the statements before it there.
    ensures offsets { OnOk result ((m : Part) (i : ℕ) (r : Located) → Contains unit.now.modules m
        → slice_get (lines_in m) i ≡ Some r
        → offset_of r ≡ sum_by (length_in (section_of r)) (take i (lines_in m))) }
{
    objects(alloc, unit.modules.as_slice())
}
