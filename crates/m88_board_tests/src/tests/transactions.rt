//! Accesses by their words, those that no access has, and the registers that pending loads have.
ghost use Rattle.std.specs.Prelude.{◌≡◌, ◌%◌};
ghost use Rattle.m88_isa.specs.Memory.{IsWordAccess};

use m88_base::{Reg, Triple};
use m88_dunit::{DataUnit, access_of, triple_of};
use m88_isa::{Access, Accesses};
use std::process::Abort;

/// A load of a word.
fn load(register: u32, addr: u32) -> Access
    requires { addr % 4 ≡ 0 }
    ensures { IsWordAccess result }
{
    Access {
        write: false,
        addr,
        en: 15,
        reg: Reg::from_low_bits(register),
        signed: false,
        doub1: false,
        lock: false,
        value: 0,
    }
}

/// The words of worked programs with the accesses that they tell: three loads, both halves of a double, and an exchange.
#[test]
fn accesses_of_words(rt: HostRuntime) {
    let first_half = Access {
        doub1: true,
        ..load(31, 0x2000)
    };
    let exchanged = Access {
        lock: true,
        ..load(2, 0x5000)
    };
    let stored = Access {
        write: true,
        value: 5,
        reg: Reg::ZERO,
        ..exchanged
    };
    let rows = [
        ((0x13D, 0, 0x5000), load(2, 0x5000)),
        ((0x1BD, 0, 0x6000), load(3, 0x6000)),
        ((0x23D, 0, 0x7000), load(4, 0x7000)),
        ((0x2FBD, 0, 0x2000), first_half),
        ((0x3D, 0, 0x2004), load(0, 0x2004)),
        ((0x113D, 0, 0x5000), exchanged),
        ((0x103F, 5, 0x5000), stored),
    ];
    for ((dmt, dmd, dma), access) in rows {
        let words = Triple { dmt, dmd, dma };
        assert_eq!(rt; access_of(&words), Some(access));
        assert_eq!(rt; triple_of(&access), words);
    }
}

/// Words that no access has, each with one bad field in the words of a load or of a store.
#[test]
fn words_without_an_access(rt: HostRuntime) {
    let rows = [
        // VALID
        (0x13C, 0, 0x5000),
        (0, 0, 0),
        // BO, DAS, and a bit above them
        (0x813D, 0, 0x5000),
        (0x413D, 0, 0x5000),
        (0x1_013D, 0, 0x5000),
        // no bytes, bytes apart, three bytes, the two in the middle
        (0x101, 0, 0x5000),
        (0x129, 0, 0x5000),
        (0x13D - 0x20, 0, 0x5000),
        (0x119, 0, 0x5000),
        // a load with a value
        (0x13D, 1, 0x5000),
        // an address inside a word
        (0x13D, 0, 0x5002),
        (0x3F, 7, 0x5001),
        // a store with a register, and one with a sign
        (0xBF, 7, 0x5000),
        (0x7F, 7, 0x5000),
    ];
    for (dmt, dmd, dma) in rows {
        assert_eq!(rt; access_of(&Triple { dmt, dmd, dma }), None);
    }
}

/// Makes a load of a word pending.
fn issue(rt: &impl Abort, unit: &mut DataUnit, register: u32, addr: u32)
    requires { addr % 4 ≡ 0 }
{
    let first = load(register, addr);
    let accesses = Accesses {
        count: 1,
        first,
        second: first,
    };
    assert!(rt; unit.issue(&accesses) == Ok(()), "r{register}");
}

#[test]
fn registers_of_pending_loads(rt: HostRuntime) {
    let mut unit = DataUnit::new();
    issue(&rt, &mut unit, 2, 0x5000);
    issue(&rt, &mut unit, 3, 0x6000);
    assert_eq!(rt; unit.pending_regs(), 0xC);
    issue(&rt, &mut unit, 4, 0x7000);
    assert_eq!(rt; unit.pending_regs(), 0x1C);
}
