//! The operands of an instruction, by the form of its mnemonic.
ghost use Rattle.std.specs.Prelude.{◌≡◌, ◌≤◌};
ghost use Rattle.m88_parse.specs.Fault.{Gives};
ghost use Rattle.m88_parse.specs.Inside.Grammar.{read, either_form, immediate_form, registers_form, memory_form, user_memory_form, address_form, bits_form, find_bit_form, branch_form, branch_bit_form, branch_cond_form, jump_form, trap_bit_form, trap_cond_form, bounds_form, ldcr_form, stcr_form, xcr_form, form_of};
ghost use Rattle.m88_parse.specs.Language.Operands.{most_width};

use crate::fault::ParseFault;
use crate::operand::{Bound, Field, Index, Operand};
use crate::parser::Parser;
use crate::shape::Shape;
use crate::unit::Body;
use m88_base::Kind;
use m88_isa::{BitOp, ImmOp, Instr, LdaSize, MemOp, RegOp};

/// The reach of a target in 26 bits: words forward, one less than back.
const FAR: u32 = 1 << 25;

/// The reach of a target in 16 bits: words forward, one less than back.
const NEAR: u32 = 1 << 15;

/// The most that a vector can be.
const VECTORS: u32 = 511;

/// The widest literal field, in bits: a rotation has no width.
fn most_width(op: BitOp) -> u32
    ensures value { result ≡ most_width op }
    ensures bound { result ≤ 31 }
{
    match op {
        BitOp::Rot => 0,
        _ => 31,
    }
}

impl<'a> Parser<'a> {
    /// rD,rS1 and an immediate or a register, into `out`.
    #[tactic(auto, unfolding(crate::specs::Inside::Grammar::read))]
    fn either(&mut self, imm: ImmOp, reg: RegOp, out: &mut Body) -> Result<(), ParseFault>
        ensures { Gives (λ _. out.new) result (read (either_form imm reg) self.old) }
    {
        let (d, s1) = self.two_registers_comma()?;
        let body = match self.operand()? {
            Operand::Register(s2) => Body::Code(Instr::Regs { op: reg, d, s1, s2 }, None),
            Operand::Immediate(x) => Body::Code(
                Instr::Imm {
                    op: imm,
                    d,
                    s1,
                    imm: x.imm,
                },
                x.fixup,
            ),
        };
        self.close(out, body)
    }

    /// rD,rS1 and an immediate, into `out`.
    #[tactic(auto, unfolding(crate::specs::Inside::Grammar::read))]
    fn immediate_form(&mut self, op: ImmOp, out: &mut Body) -> Result<(), ParseFault>
        ensures { Gives (λ _. out.new) result (read (immediate_form op) self.old) }
    {
        let (d, s1) = self.two_registers_comma()?;
        let x = self.immediate()?;
        self.close(
            out,
            Body::Code(
                Instr::Imm {
                    op,
                    d,
                    s1,
                    imm: x.imm,
                },
                x.fixup,
            ),
        )
    }

    /// rD,rS1,rS2, into `out`.
    #[tactic(auto, unfolding(crate::specs::Inside::Grammar::read))]
    fn registers(&mut self, op: RegOp, out: &mut Body) -> Result<(), ParseFault>
        ensures { Gives (λ _. out.new) result (read (registers_form op) self.old) }
    {
        let (d, s1) = self.two_registers_comma()?;
        let s2 = self.register()?;
        self.close(out, Body::Code(Instr::Regs { op, d, s1, s2 }, None))
    }

    /// rD,rS1 and an immediate, a register, or a scaled register, into `out`.
    #[tactic(auto, unfolding(crate::specs::Inside::Grammar::read))]
    fn memory(&mut self, op: MemOp, out: &mut Body) -> Result<(), ParseFault>
        ensures { Gives (λ _. out.new) result (read (memory_form op) self.old) }
    {
        let (d, s1) = self.two_registers()?;
        let body = match self.index()? {
            Index::Scaled(s2) => Body::Code(
                Instr::MemReg {
                    op,
                    d,
                    s1,
                    s2,
                    scaled: true,
                    usr: false,
                },
                None,
            ),
            Index::Offset(Operand::Register(s2)) => Body::Code(
                Instr::MemReg {
                    op,
                    d,
                    s1,
                    s2,
                    scaled: false,
                    usr: false,
                },
                None,
            ),
            Index::Offset(Operand::Immediate(x)) => Body::Code(
                Instr::MemImm {
                    op,
                    d,
                    s1,
                    imm: x.imm,
                },
                x.fixup,
            ),
        };
        self.close(out, body)
    }

    /// rD,rS1 and a register or a scaled register, in the user's address space, into `out`.
    #[tactic(auto, unfolding(crate::specs::Inside::Grammar::read))]
    fn user_memory(&mut self, op: MemOp, out: &mut Body) -> Result<(), ParseFault>
        ensures { Gives (λ _. out.new) result (read (user_memory_form op) self.old) }
    {
        let (d, s1) = self.two_registers()?;
        let (s2, scaled) = self.user_index()?;
        self.close(
            out,
            Body::Code(
                Instr::MemReg {
                    op,
                    d,
                    s1,
                    s2,
                    scaled,
                    usr: true,
                },
                None,
            ),
        )
    }

    /// rD,rS1[rS2], into `out`.
    #[tactic(auto, unfolding(crate::specs::Inside::Grammar::read))]
    fn address(&mut self, size: LdaSize, out: &mut Body) -> Result<(), ParseFault>
        ensures { Gives (λ _. out.new) result (read (address_form size) self.old) }
    {
        let (d, s1) = self.two_registers()?;
        let s2 = self.scaled()?;
        self.close(out, Body::Code(Instr::Lda { size, d, s1, s2 }, None))
    }

    /// rD,rS1 and a width and an offset, or a register, into `out`.
    #[tactic(auto, unfolding(crate::specs::Inside::Grammar::read))]
    fn bits(&mut self, op: BitOp, out: &mut Body) -> Result<(), ParseFault>
        ensures { Gives (λ _. out.new) result (read (bits_form op) self.old) }
    {
        let (d, s1) = self.two_registers_comma()?;
        let instr = match self.field(most_width(op))? {
            Field::Register(s2) => Instr::BitReg { op, d, s1, s2 },
            Field::Literal { width, offset } => Instr::BitLit {
                op,
                d,
                s1,
                width,
                offset,
            },
        };
        self.close(out, Body::Code(instr, None))
    }

    /// rD,rS2, into `out`.
    #[tactic(auto, unfolding(crate::specs::Inside::Grammar::read))]
    fn find_bit(&mut self, ones: bool, out: &mut Body) -> Result<(), ParseFault>
        ensures { Gives (λ _. out.new) result (read (find_bit_form ones) self.old) }
    {
        let (d, s2) = self.two_registers()?;
        self.close(out, Body::Code(Instr::Find { ones, d, s2 }, None))
    }

    /// A target, into `out`.
    #[tactic(auto, unfolding(crate::specs::Inside::Grammar::read))]
    fn branch(&mut self, link: bool, delayed: bool, out: &mut Body) -> Result<(), ParseFault>
        ensures { Gives (λ _. out.new) result (read (branch_form link delayed) self.old) }
    {
        let target = self.target(Kind::Pc26, FAR)?;
        self.close(
            out,
            Body::Code(
                Instr::Branch {
                    link,
                    delayed,
                    words: target.words,
                },
                target.fixup,
            ),
        )
    }

    /// A bit, rS1 and a target, into `out`.
    #[tactic(auto, unfolding(crate::specs::Inside::Grammar::read))]
    fn branch_bit(&mut self, set: bool, delayed: bool, out: &mut Body) -> Result<(), ParseFault>
        ensures { Gives (λ _. out.new) result (read (branch_bit_form set delayed) self.old) }
    {
        let bit = self.bit()?;
        self.mark(b',')?;
        let s1 = self.register_comma()?;
        let target = self.target(Kind::Pc16, NEAR)?;
        self.close(
            out,
            Body::Code(
                Instr::BranchBit {
                    set,
                    delayed,
                    bit,
                    s1,
                    words: target.words as i16,
                },
                target.fixup,
            ),
        )
    }

    /// A condition, rS1 and a target, into `out`.
    #[tactic(auto, unfolding(crate::specs::Inside::Grammar::read))]
    fn branch_cond(&mut self, delayed: bool, out: &mut Body) -> Result<(), ParseFault>
        ensures { Gives (λ _. out.new) result (read (branch_cond_form delayed) self.old) }
    {
        let mask = self.mask()?;
        self.mark(b',')?;
        let s1 = self.register_comma()?;
        let target = self.target(Kind::Pc16, NEAR)?;
        self.close(
            out,
            Body::Code(
                Instr::BranchCond {
                    delayed,
                    mask,
                    s1,
                    words: target.words as i16,
                },
                target.fixup,
            ),
        )
    }

    /// rS2, into `out`.
    #[tactic(auto, unfolding(crate::specs::Inside::Grammar::read))]
    fn jump(&mut self, link: bool, delayed: bool, out: &mut Body) -> Result<(), ParseFault>
        ensures { Gives (λ _. out.new) result (read (jump_form link delayed) self.old) }
    {
        let s2 = self.register()?;
        self.close(out, Body::Code(Instr::Jump { link, delayed, s2 }, None))
    }

    /// A bit, rS1 and a vector, into `out`.
    #[tactic(auto, unfolding(crate::specs::Inside::Grammar::read))]
    fn trap_bit(&mut self, set: bool, out: &mut Body) -> Result<(), ParseFault>
        ensures { Gives (λ _. out.new) result (read (trap_bit_form set) self.old) }
    {
        let bit = self.bit()?;
        self.mark(b',')?;
        let s1 = self.register_comma()?;
        let vector = self.number(VECTORS)? as u16;
        self.close(
            out,
            Body::Code(
                Instr::TrapBit {
                    set,
                    bit,
                    s1,
                    vector,
                },
                None,
            ),
        )
    }

    /// A condition, rS1 and a vector, into `out`.
    #[tactic(auto, unfolding(crate::specs::Inside::Grammar::read))]
    fn trap_cond(&mut self, out: &mut Body) -> Result<(), ParseFault>
        ensures { Gives (λ _. out.new) result (read trap_cond_form self.old) }
    {
        let mask = self.mask()?;
        self.mark(b',')?;
        let s1 = self.register_comma()?;
        let vector = self.number(VECTORS)? as u16;
        self.close(out, Body::Code(Instr::TrapCond { mask, s1, vector }, None))
    }

    /// rS1 and a number or a register, into `out`.
    #[tactic(auto, unfolding(crate::specs::Inside::Grammar::read))]
    fn bounds(&mut self, out: &mut Body) -> Result<(), ParseFault>
        ensures { Gives (λ _. out.new) result (read bounds_form self.old) }
    {
        let s1 = self.register_comma()?;
        let instr = match self.bound()? {
            Bound::Register(s2) => Instr::BoundReg { s1, s2 },
            Bound::Number(imm) => Instr::BoundImm { s1, imm },
        };
        self.close(out, Body::Code(instr, None))
    }

    /// rD and a control register, into `out`.
    #[tactic(auto, unfolding(crate::specs::Inside::Grammar::read))]
    fn ldcr(&mut self, float: bool, out: &mut Body) -> Result<(), ParseFault>
        ensures { Gives (λ _. out.new) result (read (ldcr_form float) self.old) }
    {
        let d = self.register_comma()?;
        let cr = self.control(float)?;
        self.close(out, Body::Code(Instr::Ldcr { d, cr, float }, None))
    }

    /// rS1 and a control register, into `out`.
    #[tactic(auto, unfolding(crate::specs::Inside::Grammar::read))]
    fn stcr(&mut self, float: bool, out: &mut Body) -> Result<(), ParseFault>
        ensures { Gives (λ _. out.new) result (read (stcr_form float) self.old) }
    {
        let s1 = self.register_comma()?;
        let cr = self.control(float)?;
        self.close(out, Body::Code(Instr::Stcr { s1, cr, float }, None))
    }

    /// rD,rS1 and a control register, into `out`.
    #[tactic(auto, unfolding(crate::specs::Inside::Grammar::read))]
    fn xcr(&mut self, float: bool, out: &mut Body) -> Result<(), ParseFault>
        ensures { Gives (λ _. out.new) result (read (xcr_form float) self.old) }
    {
        let (d, s1) = self.two_registers_comma()?;
        let cr = self.control(float)?;
        self.close(out, Body::Code(Instr::Xcr { d, s1, cr, float }, None))
    }

    /// The operands of an instruction, to the end of the line, and the body that they make into `out`.
    #[tactic(auto, unfolding(crate::specs::Inside::Grammar::form_of))]
    pub fn instruction(&mut self, shape: Shape, out: &mut Body) -> Result<(), ParseFault>
        ensures { Gives (λ _. out.new) result (read (form_of shape) self.old) }
    {
        match shape {
            Shape::Either(imm, reg) => self.either(imm, reg, out),
            Shape::Immediate(op) => self.immediate_form(op, out),
            Shape::Registers(op) => self.registers(op, out),
            Shape::Memory(op) => self.memory(op, out),
            Shape::UserMemory(op) => self.user_memory(op, out),
            Shape::Address(size) => self.address(size, out),
            Shape::Bits(op) => self.bits(op, out),
            Shape::Find { ones } => self.find_bit(ones, out),
            Shape::Branch { link, delayed } => self.branch(link, delayed, out),
            Shape::BranchBit { set, delayed } => self.branch_bit(set, delayed, out),
            Shape::BranchCond { delayed } => self.branch_cond(delayed, out),
            Shape::Jump { link, delayed } => self.jump(link, delayed, out),
            Shape::TrapBit { set } => self.trap_bit(set, out),
            Shape::TrapCond => self.trap_cond(out),
            Shape::Bounds => self.bounds(out),
            Shape::Return => self.close(out, Body::Code(Instr::Rte, None)),
            Shape::Ldcr { float } => self.ldcr(float, out),
            Shape::Stcr { float } => self.stcr(float, out),
            Shape::Xcr { float } => self.xcr(float, out),
        }
    }
}
