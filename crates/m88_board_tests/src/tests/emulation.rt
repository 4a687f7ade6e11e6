//! What software does and doesn't do of one instruction, where no command could ask it to.

use m88_base::{Absent, Image, NoMemory};
use m88_emul::{Emulated, emulate};
use m88_mem::Memory;

#[test]
fn no_instruction_and_no_exchange_is_emulated(rt: HostRuntime) -> Result<(), NoMemory> {
    let image = Image::new(rt.alloc());
    let mut memory = Memory::new(rt.alloc(), &image, &Absent::All)?;
    let mut regs = [0; 32];
    regs[2] = 0xFFFF_FFFF;
    // no instruction, and xmem r4,r2,0
    for word in [0xF820_0001, 0x0482_0000] {
        let done = emulate(rt.alloc(), 4, word, &mut regs, &mut memory)?;
        assert!(rt; done == Emulated::Not, "{word:08X}");
    }
    // div r4,r2,r3, which raises nothing
    regs[2] = 6;
    regs[3] = 2;
    let done = emulate(rt.alloc(), 8, 0xF482_7803, &mut regs, &mut memory)?;
    assert!(rt; done == Emulated::Not);
    assert!(rt; memory.is_absent(0));
    Ok(())
}

#[test]
fn a_division_is_emulated(rt: HostRuntime) -> Result<(), NoMemory> {
    let image = Image::new(rt.alloc());
    let mut memory = Memory::new(rt.alloc(), &image, &Absent::All)?;
    let mut regs = [0; 32];
    regs[2] = 0xFFFF_FFFA;
    regs[3] = 2;
    // div r4,r2,r3: -6 by 2
    let done = emulate(rt.alloc(), 8, 0xF482_7803, &mut regs, &mut memory)?;
    assert!(rt; done == Emulated::Done);
    assert_eq!(rt; regs[4], 0xFFFF_FFFD);
    Ok(())
}

#[test]
fn a_store_over_the_end_of_a_page_is_emulated(rt: HostRuntime) -> Result<(), NoMemory> {
    let image = Image::new(rt.alloc());
    let mut memory = Memory::new(rt.alloc(), &image, &Absent::All)?;
    let mut regs = [0; 32];
    regs[2] = 0x2FFE;
    regs[4] = 0x1122_3344;
    // st r4,r2,0
    let done = emulate(rt.alloc(), 4, 0x2482_0000, &mut regs, &mut memory)?;
    assert!(rt; done == Emulated::Done);
    assert!(rt; [memory.word(0x2FFC), memory.word(0x3000)] == [0x1122, 0x3344_0000]);
    assert!(rt; !memory.is_absent(2) && !memory.is_absent(3) && memory.is_absent(4));
    Ok(())
}
