//! The registers that wait, put back by a word.

use m88_base::Reg;
use m88_scoreboard::RegFile;
use std::process::Abort;

/// Ends the test unless these registers wait once the word is put back, and r0 doesn't.
fn expect_restored(rt: &impl Abort, given: u32, kept: u32) {
    let mut regs = RegFile::new();
    regs.restore(given);
    assert!(rt; regs.busy() == kept, "{given:08X}");
    assert!(rt; regs.get(Reg::ZERO) == Ok(0), "{given:08X}");
}

#[test]
fn r0_never_waits(rt: HostRuntime) {
    expect_restored(&rt, 0x1D, 0x1C);
    expect_restored(&rt, 0x8000_0001, 0x8000_0000);
    expect_restored(&rt, 1, 0);
}
