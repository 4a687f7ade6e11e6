//! The linker: the image of a list of objects.
ghost use Rattle.std.specs.Prelude.{◌≡◌, ◌⊎◌, All, IfErr, IfOk, None, OnOk, true};
ghost use Rattle.std.specs.Result.{IsErrAnd};
ghost use Rattle.m88_base.specs.Image.{IsImage};
ghost use Rattle.m88_base.specs.OneVerdict.{HasOneFaultUnless};
ghost use Rattle.m88_link.specs.declared.fault.LinkFault.{LinkFault as Refusal};
ghost use Rattle.m88_link.specs.Faults.{memory_fault};
ghost use Rattle.m88_link.specs.Forced.{IsAllocated, forced_layout};
ghost use Rattle.m88_link.specs.Inside.Findings.{IsEnded};
ghost use Rattle.m88_link.specs.Layout.{layout_of};
ghost use Rattle.m88_link.specs.Linked.{IsLinked, start_address};
ghost use Rattle.m88_link.specs.Refusal.{IsLinkable, IsRefused, symbol_fault};
ghost use Rattle.m88_link.specs.Sound.{IsSound};

use crate::bases::{fit, stand};
use crate::exports::globals;
use crate::fault::{LinkFault, TOO_LARGE};
use crate::findings::Findings;
use crate::object::Object;
use crate::overlap::check_overlap;
use crate::placing::{image_of, spots};
use crate::table::SymbolTable;
use m88_base::{FIRST_TEXT, Image, Name};
use std::alloc::Global;

/// The image of objects, or the first reason why they have none. The text of all objects stands from
/// 0x00001000 on and the data from the least multiple of 4096 on that isn't below the end of all text,
/// each part at the next multiple of 8; other sections stand at their own addresses. The program
/// starts at `_start`, or at 0x00001000 where that isn't defined.
pub fn link(alloc: Global, objects: &[Object]) -> Result<Image, LinkFault>
    requires { All IsSound objects.now }
    // What is linked is linkable, and its image is the layout's; what is linkable is linked, unless
    // memory runs out.
    ensures image { IfOk result (IsLinked (layout_of objects.now)) }
    ensures is_image { IfOk result IsImage }
    ensures linkable { OnOk result (IsLinkable (layout_of objects.now)) }
    ensures linked { IsLinkable (layout_of objects.now)
        → IfErr result (λ fault. fault ≡ memory_fault) }
    // A fault is the layout's refusal, or memory ran out; and a refusal of the layout is answered.
    ensures err { IfErr result (λ fault. (fault ≡ memory_fault)
        ⊎ IsRefused (layout_of objects.now) fault) }
    ensures refused { (e : Refusal) → IsRefused (layout_of objects.now) e
        → IsErrAnd result (λ fault. (fault ≡ memory_fault) ⊎ (fault ≡ e)) }
    // The layout is linkable or has a refusal, never both, and one at most.
    ensures one_verdict { HasOneFaultUnless (IsLinkable (layout_of objects.now))
        (IsRefused (layout_of objects.now)) }
{
    image_or_refusal(alloc, objects)
}

/// The image of objects, or the first reason why they have none.
fn image_or_refusal(alloc: Global, objects: &[Object]) -> Result<Image, LinkFault>
    requires { All IsSound objects.now }
    ensures image { IfOk result (IsLinked (layout_of objects.now)) }
    ensures is_image { IfOk result IsImage }
    ensures linkable { OnOk result (IsLinkable (layout_of objects.now)) }
    ensures err { IfErr result (λ fault. (fault ≡ memory_fault)
        ⊎ IsRefused (layout_of objects.now) fault) }
{
    let (image, _) = link_all(alloc, false, objects)?;
    Ok(image)
}

/// The image of objects as far as it can be made: a relocation whose name doesn't mean just one thing, or whose field
/// can't take the distance, isn't carried out. With it goes the first fault by which `link` refuses the objects, if
/// there is one. Where that is for their size or an overlap, there is no such image either.
pub fn link_forced(
    alloc: Global,
    objects: &[Object],
) -> Result<(Image, Option<LinkFault>), LinkFault>
    requires { All IsSound objects.now }
    // What is linked has its room, and its image is that of the forced layout.
    ensures allocated { OnOk result (IsAllocated (layout_of objects.now)) }
    ensures image { IfOk result (λ r. IsLinked (forced_layout objects.now) r.0) }
    ensures is_image { IfOk result (λ r. IsImage r.0) }
    // The fault is the layout's, the first that names a symbol; and without one the image is the layout's.
    ensures fault { IfOk result (λ r. r.1 ≡ symbol_fault (layout_of objects.now)) }
    ensures whole { IfOk result (λ r. r.1 ≡ None → IsLinked (layout_of objects.now) r.0) }
    // What has its room is linked, unless memory runs out; what doesn't is refused.
    ensures linked { IsAllocated (layout_of objects.now)
        → IfErr result (λ fault. fault ≡ memory_fault) }
    ensures err { IfErr result (λ fault. (fault ≡ memory_fault)
        ⊎ IsRefused (layout_of objects.now) fault) }
{
    link_all(alloc, true, objects)
}

/// Links objects, and goes on behind a fault that names a symbol, or ends at it.
fn link_all(
    alloc: Global,
    goes_on: bool,
    objects: &[Object],
) -> Result<(Image, Option<LinkFault>), LinkFault>
    requires { All IsSound objects.now }
    ensures allocated { OnOk result (IsAllocated (layout_of objects.now)) }
    ensures image { IfOk result (λ r. IsLinked (forced_layout objects.now) r.0) }
    ensures is_image { IfOk result (λ r. IsImage r.0) }
    ensures fault { IfOk result (λ r. r.1 ≡ symbol_fault (layout_of objects.now)) }
    ensures ended { IfOk result (λ r. IsEnded goes_on r.1) }
    ensures linked { goes_on ≡ true → IsAllocated (layout_of objects.now)
        → IfErr result (λ fault. fault ≡ memory_fault) }
    ensures err { IfErr result (λ fault. (fault ≡ memory_fault)
        ⊎ IsRefused (layout_of objects.now) fault) }
{
    if !fit(objects) {
        return Err(TOO_LARGE);
    }
    let placements = stand(alloc, objects)?;
    check_overlap(alloc, &placements)?;
    let mut findings = Findings::new(goes_on);
    let globals = globals(alloc, &mut findings, &placements)?;
    let spots = spots(alloc, &mut findings, &placements, &globals)?;
    let fault = findings.first();
    if !goes_on && let Some(fault) = fault {
        return Err(fault);
    }
    let mut image = image_of(alloc, spots)?;
    image.set_start(start(&globals));
    Ok((image, fault))
}

/// The address at which a program starts.
fn start(globals: &SymbolTable) -> u32
    ensures { result ≡ start_address globals.now }
{
    let Some(name) = Name::new(b"_start") else {
        unreachable!();
    };
    match globals.get(&name) {
        Some(found) => found.value,
        None => FIRST_TEXT,
    }
}
