//! A handler that a data fault enters, and what is written of that. The values are worked by hand.

use m88_base::{Image, MOST_INPUT, NoMemory};
use m88_entries::{entry_text, told_fault};
use m88_handler::enter;
use std::alloc::Global;

/// What is written of a fault that enters a handler with this code at vector 3.
fn written(alloc: Global, code: &[u8], fault: &[u8]) -> Result<Vec<u8>, NoMemory> {
    if MOST_INPUT < fault.len() {
        return Err(NoMemory);
    }
    let mut image = Image::new(alloc);
    image.add(0x18, code).or(Err(NoMemory))?;
    let told = match told_fault(alloc, fault) {
        Ok(told) => told,
        Err(_) => return Err(NoMemory),
    };
    let entry = enter(
        alloc,
        &image,
        &told.case.fault,
        &told.given,
        &told.case.image,
        100,
    )?;
    entry_text(alloc, &told.case.fault, &entry)
}

/// Nothing is pending, and r5 has 7.
const NOTHING: &[u8] = b"epsr 000003F8 sxip 00001002 snip 00001006 sfip 0000100A ssbr 00000000
t0 00000000 00000000 00000000
t1 00000000 00000000 00000000
t2 00000000 00000000 00000000
r5 00000007
";

/// A load of the word at 00005000 into r2.
const LOAD: &[u8] = b"epsr 000003F8 sxip 00001002 snip 00001006 sfip 0000100A ssbr 00000004
t0 0000013D 00000000 00005000
t1 00000000 00000000 00000000
t2 00000000 00000000 00000000
mem 00005000 00000007
";

#[test]
fn a_handler_is_entered_and_judged(rt: HostRuntime) {
    // rte alone; no code; stcr r0,cr3, which clears SSBR and loads nothing, and rte
    let tries: [(&[u8], &[u8], &[u8]); 3] = [
        (
            b"\xF4\x00\xFC\x00",
            NOTHING,
            b"entry kept\nsteps 1\nconsole -\n",
        ),
        (
            b"",
            NOTHING,
            b"entry fails vector 2 at 00000018\nsteps 0\nconsole -\n",
        ),
        (
            b"\x80\x00\x80\x60\xF4\x00\xFC\x00",
            LOAD,
            b"entry differs r2 00000000 for 00000007\nsteps 2\nconsole -\nr2 00000000\n",
        ),
    ];
    let rest = b"epsr 000003F8\nssbr 00000000\nsnip 00001006 sfip 0000100A\n";
    for (code, fault, head) in tries {
        let text = written(rt.alloc(), code, fault).expect(&rt, "memory");
        assert!(rt; text.as_slice().starts_with(head));
        assert!(rt; text.as_slice().ends_with(rest));
        assert!(rt; text.len() == head.len() + rest.len());
    }
}
