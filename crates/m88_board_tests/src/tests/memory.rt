//! The call that reads a word of the data bus, which no other crate makes.
ghost use Rattle.std.specs.Prelude.{◌≡◌, ◌%◌, ◌↔◌, IfOk, IsErr, IsTrue};
ghost use Rattle.m88_base.specs.Pages.{page_number};
ghost use Rattle.m88_mem.specs.DataBus.{absent_of, bus_of};

use m88_base::{Absent, Image, NoMemory};
use m88_mem::{AbsentPage, Memory};
use std::process::Abort;

/// The word of the data bus at the byte address of a word, or that its page is absent.
fn read(memory: &Memory, addr: u32) -> Result<u32, AbsentPage>
    requires { addr % 4 ≡ 0 }
    ensures absent { IsErr result ↔ IsTrue (absent_of memory.now (page_number addr)) }
    ensures value { IfOk result (λ word. word ≡ bus_of memory.now addr) }
{
    memory.read_word(addr)
}

/// Ends the test unless the word at an address is read so.
fn expect_read(rt: &impl Abort, memory: &Memory, addr: u32, wanted: Result<u32, AbsentPage>) {
    assert!(rt; read(memory, addr / 4 * 4) == wanted, "{addr:08X}");
}

/// The page of 0x5000 is absent, or present.
fn set_absent(memory: &mut Memory, absent: bool) {
    memory.set_absent(5, absent);
}

/// Supplies the page of 0x5000.
fn supply(memory: &mut Memory) {
    memory.supply(5);
}

#[test]
fn absent_pages_are_not_read(rt: HostRuntime) -> Result<(), NoMemory> {
    let image = Image::new(rt.alloc());
    let mut memory = Memory::new(rt.alloc(), &image, &Absent::All)?;
    expect_read(&rt, &memory, 0x5000, Err(AbsentPage));
    supply(&mut memory);
    expect_read(&rt, &memory, 0x5000, Ok(0));
    expect_read(&rt, &memory, 0x6000, Err(AbsentPage));
    memory.evict_all();
    expect_read(&rt, &memory, 0x5000, Err(AbsentPage));
    for absent in [true, false, true] {
        set_absent(&mut memory, absent);
        assert!(rt; read(&memory, 0x5000).is_err() == absent);
    }
    Ok(())
}

#[test]
fn bytes_of_the_image_are_read(rt: HostRuntime) -> Result<(), NoMemory> {
    let mut image = Image::new(rt.alloc());
    image.add(0x1FFC, &[1, 2, 3, 4, 5]).or(Err(NoMemory))?;
    let memory = Memory::new(rt.alloc(), &image, &Absent::None)?;
    expect_read(&rt, &memory, 0x1FFC, Ok(0x0102_0304));
    expect_read(&rt, &memory, 0x2000, Ok(0x0500_0000));
    Ok(())
}
