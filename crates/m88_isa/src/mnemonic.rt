//! The names of operations and their spellings ("Instruction Set": the assembler syntax of each instruction).

ghost use Rattle.std.specs.Prelude.{◌≡◌, IfSome, Some, find};
ghost use Rattle.std.specs.Str.{bytes_eq};
ghost use Rattle.m88_isa.specs.Letters.{begun_with};
ghost use Rattle.m88_isa.specs.Mnemonic.{text_of};
ghost use Rattle.m88_isa.specs.declared.mnemonic.Mnemonic.{Mnemonic as AnyMnemonic};

use std::fmt;

/// The names of operations in the assembly language, one for each spelling ("Instruction Set": the
/// assembler syntax of each instruction). One name can stand for several forms, as `or` does for the
/// immediate and the register form; a word of a special function unit has none.
#[derive(Clone, Copy, PartialEq, Eq)]
pub enum Mnemonic {
    // load, store and exchange
    XmemBu,
    XmemBuUsr,
    Xmem,
    XmemUsr,
    LdHu,
    LdHuUsr,
    LdBu,
    LdBuUsr,
    LdD,
    LdDUsr,
    Ld,
    LdUsr,
    LdH,
    LdHUsr,
    LdB,
    LdBUsr,
    StD,
    StDUsr,
    St,
    StUsr,
    StH,
    StHUsr,
    StB,
    StBUsr,
    // load address
    LdaD,
    Lda,
    LdaH,
    // logical
    And,
    AndC,
    AndU,
    Mask,
    MaskU,
    Xor,
    XorC,
    XorU,
    Or,
    OrC,
    OrU,
    // integer arithmetic
    Addu,
    AdduCo,
    AdduCi,
    AdduCio,
    Subu,
    SubuCo,
    SubuCi,
    SubuCio,
    Divu,
    Mul,
    Add,
    AddCo,
    AddCi,
    AddCio,
    Sub,
    SubCo,
    SubCi,
    SubCio,
    Div,
    Cmp,
    // bit field
    Clr,
    Set,
    Ext,
    Extu,
    Mak,
    Rot,
    Ff1,
    Ff0,
    // flow control
    Br,
    BrN,
    Bsr,
    BsrN,
    Bb0,
    Bb0N,
    Bb1,
    Bb1N,
    Bcnd,
    BcndN,
    Jmp,
    JmpN,
    Jsr,
    JsrN,
    // traps
    Tb0,
    Tb1,
    Tcnd,
    Tbnd,
    Rte,
    // control registers
    Ldcr,
    Stcr,
    Xcr,
    Fldcr,
    Fstcr,
    Fxcr,
}

/// How each is spelled, in the order of the variants.
const SPELLINGS: [&str; 91] = [
    "xmem.bu",
    "xmem.bu.usr",
    "xmem",
    "xmem.usr",
    "ld.hu",
    "ld.hu.usr",
    "ld.bu",
    "ld.bu.usr",
    "ld.d",
    "ld.d.usr",
    "ld",
    "ld.usr",
    "ld.h",
    "ld.h.usr",
    "ld.b",
    "ld.b.usr",
    "st.d",
    "st.d.usr",
    "st",
    "st.usr",
    "st.h",
    "st.h.usr",
    "st.b",
    "st.b.usr",
    "lda.d",
    "lda",
    "lda.h",
    "and",
    "and.c",
    "and.u",
    "mask",
    "mask.u",
    "xor",
    "xor.c",
    "xor.u",
    "or",
    "or.c",
    "or.u",
    "addu",
    "addu.co",
    "addu.ci",
    "addu.cio",
    "subu",
    "subu.co",
    "subu.ci",
    "subu.cio",
    "divu",
    "mul",
    "add",
    "add.co",
    "add.ci",
    "add.cio",
    "sub",
    "sub.co",
    "sub.ci",
    "sub.cio",
    "div",
    "cmp",
    "clr",
    "set",
    "ext",
    "extu",
    "mak",
    "rot",
    "ff1",
    "ff0",
    "br",
    "br.n",
    "bsr",
    "bsr.n",
    "bb0",
    "bb0.n",
    "bb1",
    "bb1.n",
    "bcnd",
    "bcnd.n",
    "jmp",
    "jmp.n",
    "jsr",
    "jsr.n",
    "tb0",
    "tb1",
    "tcnd",
    "tbnd",
    "rte",
    "ldcr",
    "stcr",
    "xcr",
    "fldcr",
    "fstcr",
    "fxcr",
];

/// All mnemonics, by their first letters from a to x.
const MNEMONICS: [Mnemonic; 91] = [
    Mnemonic::And,
    Mnemonic::AndC,
    Mnemonic::AndU,
    Mnemonic::Addu,
    Mnemonic::AdduCo,
    Mnemonic::AdduCi,
    Mnemonic::AdduCio,
    Mnemonic::Add,
    Mnemonic::AddCo,
    Mnemonic::AddCi,
    Mnemonic::AddCio,
    Mnemonic::Br,
    Mnemonic::BrN,
    Mnemonic::Bsr,
    Mnemonic::BsrN,
    Mnemonic::Bb0,
    Mnemonic::Bb0N,
    Mnemonic::Bb1,
    Mnemonic::Bb1N,
    Mnemonic::Bcnd,
    Mnemonic::BcndN,
    Mnemonic::Cmp,
    Mnemonic::Clr,
    Mnemonic::Divu,
    Mnemonic::Div,
    Mnemonic::Ext,
    Mnemonic::Extu,
    Mnemonic::Ff1,
    Mnemonic::Ff0,
    Mnemonic::Fldcr,
    Mnemonic::Fstcr,
    Mnemonic::Fxcr,
    Mnemonic::Jmp,
    Mnemonic::JmpN,
    Mnemonic::Jsr,
    Mnemonic::JsrN,
    Mnemonic::LdHu,
    Mnemonic::LdHuUsr,
    Mnemonic::LdBu,
    Mnemonic::LdBuUsr,
    Mnemonic::LdD,
    Mnemonic::LdDUsr,
    Mnemonic::Ld,
    Mnemonic::LdUsr,
    Mnemonic::LdH,
    Mnemonic::LdHUsr,
    Mnemonic::LdB,
    Mnemonic::LdBUsr,
    Mnemonic::LdaD,
    Mnemonic::Lda,
    Mnemonic::LdaH,
    Mnemonic::Ldcr,
    Mnemonic::Mask,
    Mnemonic::MaskU,
    Mnemonic::Mul,
    Mnemonic::Mak,
    Mnemonic::Or,
    Mnemonic::OrC,
    Mnemonic::OrU,
    Mnemonic::Rot,
    Mnemonic::Rte,
    Mnemonic::StD,
    Mnemonic::StDUsr,
    Mnemonic::St,
    Mnemonic::StUsr,
    Mnemonic::StH,
    Mnemonic::StHUsr,
    Mnemonic::StB,
    Mnemonic::StBUsr,
    Mnemonic::Subu,
    Mnemonic::SubuCo,
    Mnemonic::SubuCi,
    Mnemonic::SubuCio,
    Mnemonic::Sub,
    Mnemonic::SubCo,
    Mnemonic::SubCi,
    Mnemonic::SubCio,
    Mnemonic::Set,
    Mnemonic::Stcr,
    Mnemonic::Tb0,
    Mnemonic::Tb1,
    Mnemonic::Tcnd,
    Mnemonic::Tbnd,
    Mnemonic::XmemBu,
    Mnemonic::XmemBuUsr,
    Mnemonic::Xmem,
    Mnemonic::XmemUsr,
    Mnemonic::Xor,
    Mnemonic::XorC,
    Mnemonic::XorU,
    Mnemonic::Xcr,
];

/// The mnemonics that begin with a letter: a part of all of them.
#[tactic(auto, unfolding(crate::specs::Letters::begun_with, crate::specs::Mnemonic::text_of))]
fn begun_with(letter: u8) -> &'static [Mnemonic]
    ensures { result.now ≡ begun_with letter }
{
    match letter {
        b'a' => &MNEMONICS[0..11],
        b'b' => &MNEMONICS[11..21],
        b'c' => &MNEMONICS[21..23],
        b'd' => &MNEMONICS[23..25],
        b'e' => &MNEMONICS[25..27],
        b'f' => &MNEMONICS[27..32],
        b'j' => &MNEMONICS[32..36],
        b'l' => &MNEMONICS[36..52],
        b'm' => &MNEMONICS[52..56],
        b'o' => &MNEMONICS[56..59],
        b'r' => &MNEMONICS[59..61],
        b's' => &MNEMONICS[61..79],
        b't' => &MNEMONICS[79..83],
        b'x' => &MNEMONICS[83..91],
        _ => &[],
    }
}

/// The first of some mnemonics that is spelled so.
fn spelled(mnemonics: &[Mnemonic], name: &[u8]) -> Option<Mnemonic>
    ensures value { result ≡ find (λ m. bytes_eq (text_of m) name.now) mnemonics.now }
    ensures found { IfSome result (λ m. text_of m ≡ name.now) }
{
    mnemonics
        .iter()
        .copied()
        .find(|m| m.text().as_bytes() == name)
}

impl Mnemonic {
    /// How the mnemonic is spelled, in lower case.
    #[tactic(auto, unfolding(crate::specs::Mnemonic::text_of))]
    pub fn text(self) -> &'static str
        ensures { result.now ≡ text_of self }
    {
        SPELLINGS[self as usize]
    }

    /// The mnemonic that is spelled so, if there is one.
    pub fn from_text(name: &[u8]) -> Option<Mnemonic>
        ensures found { IfSome result (λ m. text_of m ≡ name.now) }
        ensures only { (m : AnyMnemonic) → text_of m ≡ name.now → result ≡ Some m }
    {
        let letter = *name.first()?;
        spelled(begun_with(letter), name)
    }
}

impl fmt::Debug for Mnemonic {
    /// Prints the mnemonic as it is spelled.
    fn fmt<W: fmt::Write>(&self, f: &mut fmt::Formatter<W>) -> fmt::Result {
        f.write_str(self.text())
    }
}
