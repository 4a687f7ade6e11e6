//! The generated workload: its source and its schedule, both drawn from a number.
ghost use Rattle.std.specs.Prelude.{◌≡◌, ◌<◌, ◌*◌, ◌++◌, IfOk, OnOk, map, string_bytes};
ghost use Rattle.m88_event.specs.Letters.{letter_byte};
ghost use Rattle.m88_base.specs.Lines.{line_end};
ghost use Rattle.m88_base.specs.Reg.{reg_of};
ghost use Rattle.m88_disasm.specs.Text.{instr_text};
ghost use Rattle.m88_isa.specs.Instr.{IsValid};
ghost use Rattle.m88_isa.specs.declared.instr.Instr.TheVariants.{MemImm};
ghost use Rattle.m88_commands.specs.Inside.Drawing.{after_four, statement_from, upper_half};
ghost use Rattle.m88_commands.specs.Answer.Workload.{drawn_address, drawn_instruction, drawn_letter, drawn_letters, drawn_register, next_seed, seed_after, workload_letters, workload_source};

use m88_base::{NoMemory, Reg};
use m88_disasm::text_of;
use m88_isa::{ImmOp, Instr, MemOp, RegOp};
use std::alloc::{AllocError, Global};

/// The letters of a workload's schedule.
const LETTERS: u32 = 4096;

/// The draws of a number, by a linear congruential generator of 32 bits.
#[derive(Drop, Debug)]
pub struct Draws {
    seed: u32,
}

impl Draws {
    /// The draws of a number, from the first on.
    pub fn new(number: u32) -> Draws
        ensures { result.seed ≡ number }
    {
        Draws { seed: number }
    }

    /// The source that the next draws make, four for each of its statements.
    pub fn source(&mut self, alloc: Global, count: u32) -> Result<Vec<u8>, NoMemory>
        ensures source { IfOk result (λ source.
            source.items ≡ workload_source self.old.seed count) }
        ensures seed { OnOk result (self.new.seed ≡ seed_after self.old.seed (4 * count)) }
    {
        let mut source = Vec::new(alloc);
        for _ in 0..count {
            let statement = self.statement();
            push_statement(&mut source, &statement)?;
        }
        Ok(source)
    }

    /// The letters of the schedule that the next draws make.
    pub fn letters(&mut self, alloc: Global) -> Result<String, NoMemory>
        ensures { IfOk result (λ letters. string_bytes letters
            ≡ map letter_byte (drawn_letters self.old.seed 0 workload_letters)) }
    {
        let mut letters = String::new(alloc);
        for _ in 0..LETTERS {
            letters.push(letter_of(self.draw()))?;
        }
        Ok(letters)
    }

    /// The statement that the next four draws make.
    fn statement(&mut self) -> Instr
        ensures value { result ≡ statement_from self.old.seed }
        ensures valid { IsValid result }
        ensures seed { self.new.seed ≡ after_four self.old.seed }
    {
        let kind = self.draw() % 8;
        let b = self.register();
        let c = self.register();
        let v = self.draw();
        instruction(kind, b, c, v)
    }

    /// The register that the next draw chooses, r2 to r7.
    fn register(&mut self) -> Reg
        ensures value { result ≡ drawn_register (upper_half (next_seed self.old.seed)) }
        ensures seed { self.new.seed ≡ next_seed self.old.seed }
    {
        Reg::from_low_bits(u32::from(self.draw() % 6 + 2))
    }

    /// The next draw.
    pub fn draw(&mut self) -> u16
        ensures value { result ≡ upper_half (next_seed self.old.seed) }
        ensures seed { self.new.seed ≡ next_seed self.old.seed }
    {
        self.seed = self
            .seed
            .wrapping_mul(1_664_525)
            .wrapping_add(1_013_904_223);
        (self.seed >> 16) as u16
    }
}

/// The letter of a draw.
fn letter_of(draw: u16) -> char
    ensures value { result ≡ letter_byte (drawn_letter draw) }
    ensures ascii { result < 128 }
{
    if draw % 2 == 0 { 'i' } else { 'r' }
}

/// Appends the line of a statement.
fn push_statement(source: &mut Vec<u8>, statement: &Instr) -> Result<(), AllocError>
    requires { IsValid statement.now }
    ensures { OnOk result (source.new.items
        ≡ source.old.items ++ (instr_text statement.now ++ line_end)) }
{
    source.extend_from_slice(text_of(statement).as_bytes())?;
    source.extend_from_slice(b"\n")
}

/// The instruction of a kind, 0 to 7, on two registers and a draw.
#[tactic(auto, unfolding(crate::specs::Answer::Workload::drawn_instruction))]
fn instruction(kind: u16, b: Reg, c: Reg, v: u16) -> Instr
    ensures value { result ≡ drawn_instruction kind b c v }
    ensures valid { IsValid result }
{
    match kind {
        0 => Instr::Imm {
            op: ImmOp::Addu,
            d: b,
            s1: c,
            imm: v,
        },
        1 => Instr::Regs {
            op: RegOp::Subu,
            d: b,
            s1: c,
            s2: b,
        },
        2 | 3 => memory(MemOp::Ld, b, v),
        4 => memory(MemOp::St, b, v),
        5 => memory(MemOp::LdD, b, v),
        6 => memory(MemOp::StB, b, v),
        _ => Instr::Regs {
            op: RegOp::Xor,
            d: b,
            s1: b,
            s2: c,
        },
    }
}

/// A load or a store at the address that a draw chooses.
fn memory(op: MemOp, b: Reg, v: u16) -> Instr
    ensures value { result ≡ MemImm op b (reg_of 0) (drawn_address v) }
    ensures valid { IsValid result }
{
    Instr::MemImm {
        op,
        d: b,
        s1: Reg::from_low_bits(0),
        imm: v / 8 * 8,
    }
}
