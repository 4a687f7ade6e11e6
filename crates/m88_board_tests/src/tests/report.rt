//! A report that no run has, by hand from the format.

use m88_base::{Listed, NO_TRIPLE, NoMemory, Triple};
use m88_event::{End, Outcome, Record};
use m88_report::report;

/// The record of a fault of three loads into r2, r3 and r4.
const THREE_LOADS: Record = Record {
    event: 4,
    epsr: 0x3F8,
    sxip: 0x100A,
    snip: 0x100F,
    sfip: 0x1013,
    ssbr: 0x1C,
    triples: [
        Triple {
            dmt: 0x13D,
            dmd: 0,
            dma: 0x5000,
        },
        Triple {
            dmt: 0x1BD,
            dmd: 0,
            dma: 0x6000,
        },
        Triple {
            dmt: 0x23D,
            dmd: 0,
            dma: 0x7000,
        },
    ],
};

/// No run has this report: the lines are written by hand from the format, so that two changed words, two faults, an
/// output, the carry and a register of each line stand in one text.
#[test]
fn all_lines_at_once(rt: HostRuntime) -> Result<(), NoMemory> {
    let mut regs = [0; 32];
    regs[2] = 0x7FFF_FFFF;
    regs[8] = 0xFFFF_FFFF;
    regs[16] = 0x10;
    regs[31] = 0x1122_3344;
    let records = [
        THREE_LOADS,
        Record {
            event: 20,
            epsr: 0x1000_03F8,
            sxip: 0x1002,
            snip: 0x1007,
            sfip: 0x100B,
            ssbr: 0x8000_0000,
            triples: [
                Triple {
                    dmt: 0x2FBD,
                    dmd: 0,
                    dma: 0x2000,
                },
                Triple {
                    dmt: 0x3F,
                    dmd: 7,
                    dma: 0x2004,
                },
                NO_TRIPLE,
            ],
        },
    ];
    let outcome = Outcome {
        end: End::Vector {
            vector: 9,
            at: 0x1008,
        },
        retired: 1_000_000,
        regs,
        carry: true,
        out: Listed::new([0x41, 0x0A, 0xFF].to_vec(rt.alloc())?),
        changed: Listed::new([(0x5000, 7), (0x6000, 0xFFFF_FFFF)].to_vec(rt.alloc())?),
        events: 4_294_967_296,
        answers: 4_294_967_295,
        records: Listed::new(records.to_vec(rt.alloc())?),
    };
    let text = report(rt.alloc(), &outcome)?;
    let lines: &[u8] = b"end vector 9 at 00001008\n\
retired 1000000\n\
r0 00000000 00000000 7FFFFFFF 00000000 00000000 00000000 00000000 00000000\n\
r8 FFFFFFFF 00000000 00000000 00000000 00000000 00000000 00000000 00000000\n\
r16 00000010 00000000 00000000 00000000 00000000 00000000 00000000 00000000\n\
r24 00000000 00000000 00000000 00000000 00000000 00000000 00000000 11223344\n\
carry 1\n\
out 410AFF\n\
mem 00005000 00000007\n\
mem 00006000 FFFFFFFF\n\
events 4294967296\n\
answers 4294967295\n\
faults 2\n\
fault 1 event 4\n\
epsr 000003F8 sxip 0000100A snip 0000100F sfip 00001013 ssbr 0000001C\n\
t0 0000013D 00000000 00005000\n\
t1 000001BD 00000000 00006000\n\
t2 0000023D 00000000 00007000\n\
fault 2 event 20\n\
epsr 100003F8 sxip 00001002 snip 00001007 sfip 0000100B ssbr 80000000\n\
t0 00002FBD 00000000 00002000\n\
t1 0000003F 00000007 00002004\n\
t2 00000000 00000000 00000000\n";
    assert!(rt; text.as_slice() == lines);
    Ok(())
}
