//! How many words have an instruction, the word of bytes at any place, the registers that an instruction reads and
//! writes, and what no command shows of instructions that end a program. The numbers come from outside.

use m88_codec::{decode, word_at};
use m88_isa::{access_count, is_flow, uses, waits_for_empty, writes};

/// How many words have an instruction where D and S1 are 0, counted by hand from the table of formats, a line for each
/// group of forms: the mnemonics and marks of the group times 32 for S2, where the form has it, and a power of 2 for the
/// other free bits of the low half. No word has two forms, so none is counted twice.
const INSTRUCTIONS: [u32; 13] = [
    12 * 65536, // memory with an immediate: 12 mnemonics
    16 * 65536, // other immediates: 16 mnemonics
    (4 + 4 + 2) * 65536, // `br` and `bsr`, `bb0` and `bb1`, `bcnd`, each with and without `.n`
    65536, // `tbnd` with an immediate
    7 * 65536, // seven special function units
    12 * 4 * 32, // memory with an index: 12 mnemonics, scaled or not, user's or not
    (26 + 3 + 6) * 32, // three registers: 26 mnemonics, 3 of `lda`, 6 on bit fields
    (2 + 4 + 1) * 32, // `ff1` and `ff0`, `jmp` and `jsr` with and without `.n`, `tbnd` with a register
    1, // `rte`
    5 * 1024, // bit fields with a width and an offset: 5 mnemonics
    32, // `rot` with an offset: its width is 0
    (2 + 1) * 512, // `tb0` and `tb1`, `tcnd`: nine bits of a vector
    6 * 64, // `ldcr`, `stcr`, `xcr` and those of the other unit: six bits of a control register, and S2 is S1
];

#[test]
fn words_of_instructions_counted(rt: HostRuntime) {
    let mut expected = 0u32;
    for count in INSTRUCTIONS {
        expected = expected.wrapping_add(count);
    }
    let mut found = 0u32;
    for n in 0..1 << 22 {
        // the six opening bits and the low half
        if decode(n >> 16 << 26 | n & 0xFFFF).is_ok() {
            found = found.wrapping_add(1);
        }
    }
    assert!(rt; found == expected, "{found} in place of {expected}");
}

#[test]
fn words_in_memory(rt: HostRuntime) {
    let text = [0x58, 0x40, 0x00, 0x41, 0xF0, 0x00];
    assert_eq!(rt; word_at(&text), 0x5840_0041);
    assert_eq!(rt; word_at(&text[2..]), 0x0041_F000);
}

/// Instructions that raise a vector or take a trap, so that no command shows how many transactions they make, and
/// whether they change the flow.
const ENDING: [(u32, bool, bool); 12] = [
    (0xF51F_0506, false, false), // xmem.usr r8,r31,r6
    (0xF480_1118, false, false), // ld.d.usr r4,r0,r24
    (0xF582_2101, false, false), // st.d.usr r12,r2,r1
    (0x8280_4260, false, false), // ldcr r20,cr19
    (0x8006_8766, false, false), // stcr r6,cr59
    (0x81D6_C0B6, false, false), // xcr r14,r22,cr5
    (0x8141_CA81, false, false), // fxcr r10,r1,fcr20
    (0x9481_9BF5, false, false), // .word 0x94819BF5
    (0xF168_D000, true, true), // tb0 11,r8,0
    (0xF1E6_D800, true, true), // tb1 15,r6,0
    (0xF0D9_E86A, true, true), // tcnd 6,r25,106
    (0xF400_FC00, true, false), // rte
];

#[test]
fn instructions_that_end_a_program(rt: HostRuntime) {
    for (word, flow, waits) in ENDING {
        let instr = decode(word).ok().expect(&rt, "a word of the table");
        assert!(rt; access_count(&instr) == 0, "{word:08X} counts");
        assert!(rt; is_flow(&instr) == flow, "{word:08X} changes the flow");
        assert!(rt; waits_for_empty(&instr) == waits, "{word:08X} waits");
    }
}

/// Words, and the numbers of the registers that their instructions read and write.
const REGISTERS: [(u32, &[u32], &[u32]); 47] = [
    (0x5A3F_4BD6, &[31], &[17]), // or r17,r31,19414
    (0x540F_4039, &[15], &[]), // xor.u r0,r15,16441
    (0xF57E_4001, &[1, 30], &[11]), // and r11,r30,r1
    (0xF5EB_6300, &[11], &[15]), // addu.cio r15,r11,r0
    (0x005D_4561, &[2, 29], &[2]), // xmem.bu r2,r29,17761
    (0x059E_5CC9, &[12, 30], &[12]), // xmem r12,r30,23753
    (0x0B0F_DE21, &[15], &[24]), // ld.hu r24,r15,56865
    (0x0FDE_A2AD, &[30], &[30]), // ld.bu r30,r30,41645
    (0x1281_E680, &[1], &[20, 21]), // ld.d r20,r1,59008
    (0x13E1_0000, &[1], &[31]), // ld.d r31,r1,0
    (0x160F_F93C, &[15], &[16]), // ld r16,r15,63804
    (0x1B9A_8000, &[26], &[28]), // ld.h r28,r26,32768
    (0x1EE2_8A74, &[2], &[23]), // ld.b r23,r2,35444
    (0x2136_0000, &[9, 10, 22], &[]), // st.d r9,r22,0
    (0x23E1_0000, &[1, 31], &[]), // st.d r31,r1,0
    (0x2622_0CF8, &[2, 17], &[]), // st r17,r2,3320
    (0x2910_BF10, &[8, 16], &[]), // st.h r8,r16,48912
    (0x2FF2_8000, &[18, 31], &[]), // st.b r31,r18,32768
    (0xF663_040F, &[3, 15, 19], &[19]), // xmem r19,r3,r15
    (0xF425_1019, &[5, 25], &[1, 2]), // ld.d r1,r5,r25
    (0xF76F_2012, &[15, 18, 27, 28], &[]), // st.d r27,r15,r18
    (0xF7D8_280F, &[15, 24, 30], &[]), // st.h r30,r24,r15
    (0xF51F_0506, &[6, 8, 31], &[8]), // xmem.usr r8,r31,r6
    (0xF480_1118, &[24], &[4, 5]), // ld.d.usr r4,r0,r24
    (0xF582_2101, &[1, 2, 12, 13], &[]), // st.d.usr r12,r2,r1
    (0xF6E4_3A10, &[4, 16], &[23]), // lda.h r23,r4[r16]
    (0xF19E_8207, &[30], &[12]), // clr r12,r30,16<7>
    (0xF7BF_A810, &[16, 31], &[29]), // rot r29,r31,r16
    (0xF7C0_EC14, &[20], &[30]), // ff0 r30,r20
    (0xF40E_F81E, &[14, 30], &[]), // tbnd r14,r30
    (0xF80F_A59C, &[15], &[]), // tbnd r15,42396
    (0x8280_4260, &[], &[20]), // ldcr r20,cr19
    (0x8006_8766, &[6], &[]), // stcr r6,cr59
    (0x81D6_C0B6, &[22], &[14]), // xcr r14,r22,cr5
    (0x8141_CA81, &[1], &[10]), // fxcr r10,r1,fcr20
    (0x9481_9BF5, &[], &[]), // unit 5
    (0xC3BF_2F12, &[], &[]), // br .-16991160
    (0xCC00_0001, &[], &[1]), // bsr.n .+4
    (0xD122_C5F5, &[2], &[]), // bb0 9,r2,.-59436
    (0xDDF0_CB61, &[16], &[]), // bb1.n 15,r16,.-53884
    (0xEC69_27DC, &[9], &[]), // bcnd.n ge0,r9,.+40816
    (0xF400_C402, &[2], &[]), // jmp.n r2
    (0xF400_C80A, &[10], &[1]), // jsr r10
    (0xF168_D000, &[8], &[]), // tb0 11,r8,0
    (0xF1E6_D800, &[6], &[]), // tb1 15,r6,0
    (0xF0D9_E86A, &[25], &[]), // tcnd 6,r25,106
    (0xF400_FC00, &[], &[]), // rte
];

/// The registers of these numbers, 1 to 31, as bits.
fn set(numbers: &[u32]) -> u32 {
    let mut bits = 0u32;
    for &n in numbers {
        bits |= 1u32.wrapping_shl(n);
    }
    bits
}

#[test]
fn registers_read_and_written(rt: HostRuntime) {
    for (word, used, written) in REGISTERS {
        let instr = decode(word).ok().expect(&rt, "a word of the table");
        assert!(rt; uses(&instr) == set(used), "{word:08X} uses");
        assert!(rt; writes(&instr) == set(written), "{word:08X} writes");
    }
}
