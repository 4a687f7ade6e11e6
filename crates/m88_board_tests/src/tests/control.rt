//! The control registers by their numbers, and an exception with its return, worked by hand.

use m88_base::{NO_TRIPLE, Triple};
use m88_ctrl::{Control, Frame, Restart, cr};
use std::process::Abort;

/// Ends the test unless each register has its word.
fn expect(rt: &impl Abort, ctrl: &Control, words: &[(u8, u32)]) {
    for (n, word) in words {
        assert!(rt; ctrl.ldcr(*n) == Some(*word), "cr{n}");
    }
}

/// Ends the test unless each register takes its word.
fn store(rt: &impl Abort, ctrl: &mut Control, words: &[(u8, u32)]) {
    for (n, word) in words {
        assert!(rt; ctrl.stcr(*n, *word), "cr{n} stored");
    }
}

#[test]
fn each_register_keeps_what_is_stored(rt: HostRuntime) {
    let mut ctrl = Control::new(false);
    for n in 0..=20 {
        let start = if n == cr::PSR { 0x3F8 } else { 0 };
        assert!(rt; ctrl.ldcr(n) == Some(start), "cr{n} at the start");
    }
    for n in 1..=20 {
        assert!(rt; ctrl.stcr(n, 0x101 + u32::from(n)), "cr{n} stored");
    }
    let kept = [
        0, 0x102, 0x103, 0x104, 0x105, 0x106, 0x107, 0x108, 0x109, 0x10A, 0x10B, 0x10C, 0x10D,
        0x10E, 0x10F, 0x110, 0x111, 0x112, 0x113, 0x114, 0x115,
    ];
    for (n, word) in kept.into_iter().enumerate() {
        assert!(rt; ctrl.ldcr(n as u8) == Some(word), "cr{n}");
    }
    store(&rt, &mut ctrl, &[(cr::SSBR, 0x105)]);
    expect(&rt, &ctrl, &[(cr::SSBR, 0x104)]);
}

#[test]
fn there_are_no_other_registers(rt: HostRuntime) {
    let mut ctrl = Control::new(false);
    assert!(rt; !ctrl.stcr(cr::PID, 0x101));
    assert!(rt; !ctrl.stcr(21, 0x116));
    assert!(rt; ctrl.ldcr(21).is_none());
    expect(&rt, &ctrl, &[(cr::PID, 0)]);
}

#[test]
fn each_number_is_of_its_register(rt: HostRuntime) {
    let mut ctrl = Control::new(false);
    store(
        &rt,
        &mut ctrl,
        &[
            (7, 0x0001_0000),
            (17, 0x51),
            (18, 0x52),
            (19, 0x53),
            (20, 0x54),
        ],
    );
    let oldest = Triple {
        dmt: 0x3F,
        dmd: 0x0A0B_0C0D,
        dma: 0x5000,
    };
    let middle = Triple {
        dmt: 0x33,
        dmd: 0x1A1B_1C1D,
        dma: 0x6000,
    };
    let youngest = Triple {
        dmt: 0x13D,
        dmd: 0,
        dma: 0x7004,
    };
    let frame = Frame {
        ssbr: 4,
        sxip: 0x100A,
        snip: 0x100E,
        sfip: 0x1013,
        triples: [oldest, middle, youngest],
    };
    assert_eq!(rt; ctrl.enter(3, &frame), 0x0001_0018);
    expect(
        &rt,
        &ctrl,
        &[
            (0, 0),
            (1, 0x8000_03FB),
            (2, 0x3F8),
            (3, 4),
            (4, 0x100A),
            (5, 0x100E),
            (6, 0x1013),
            (7, 0x0001_0000),
            (8, 0x13D),
            (9, 0),
            (10, 0x7004),
            (11, 0x33),
            (12, 0x1A1B_1C1D),
            (13, 0x6000),
            (14, 0x3F),
            (15, 0x0A0B_0C0D),
            (16, 0x5000),
            (17, 0x51),
            (18, 0x52),
            (19, 0x53),
            (20, 0x54),
        ],
    );
}

/// The frame of a data fault of two loads.
fn two_loads() -> Frame {
    let first = Triple {
        dmt: 0x13D,
        dmd: 0,
        dma: 0x5000,
    };
    let second = Triple {
        dmt: 0x1BD,
        dmd: 0,
        dma: 0x6000,
    };
    Frame {
        ssbr: 0xC,
        sxip: 0x1006,
        snip: 0x100A,
        sfip: 0x100F,
        triples: [first, second, NO_TRIPLE],
    }
}

/// The control registers once a data fault is entered with the carry and MXM set.
fn entered(rt: &impl Abort, frame: &Frame) -> Control {
    let mut ctrl = Control::new(true);
    ctrl.set_carry(true);
    assert!(rt; frame.ssbr == 0xC);
    assert!(rt; ctrl.enter(3, frame) == 24);
    ctrl
}

/// Ends the test unless the instruction that faulted is where the return goes on, with the status of before.
fn expect_return(rt: &impl Abort, ctrl: &mut Control) {
    let restart = Restart {
        ssbr: 0xC,
        snip: 0x100A,
        sfip: 0x100F,
    };
    assert!(rt; ctrl.rte() == restart);
    assert!(rt; ctrl.ldcr(cr::PSR) == Some(0x1000_03FC));
    assert!(rt; ctrl.carry() && ctrl.mxm());
}

#[test]
fn a_data_fault_is_entered_and_returned_from(rt: HostRuntime) {
    let frame = two_loads();
    let mut ctrl = entered(&rt, &frame);
    expect(
        &rt,
        &ctrl,
        &[
            (cr::PSR, 0x9000_03FF),
            (cr::EPSR, 0x1000_03FC),
            (cr::SSBR, 0xC),
            (cr::SXIP, 0x1006),
            (cr::SNIP, 0x100A),
            (cr::SFIP, 0x100F),
            (cr::DMT0, 0x13D),
            (cr::DMA0, 0x5000),
            (cr::DMT1, 0x1BD),
            (cr::DMA1, 0x6000),
            (cr::DMT2, 0),
        ],
    );
    assert!(rt; ctrl.triple(1) == frame.triples[1]);
    expect_return(&rt, &mut ctrl);
}
