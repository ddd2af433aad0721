//! From words to instructions.
ghost use Rattle.std.specs.Prelude.{◌≡◌, ◌≢◌, ◌≤◌, ◌↔◌, IfSome, IsNone, All, filter, length};
ghost use Rattle.rv_table.specs.Encoding.{IsValid, encoded};
ghost use Rattle.rv_table.specs.Rows.{Matches, is_match, instruction, rows, first_match, decoded, load_rows, fence_rows, immediate_rows, auipc_rows, word_immediate_rows, store_rows, atomic_rows, register_rows, lui_rows, word_register_rows, branch_rows, jalr_rows, jal_rows, system_rows};

use crate::fields::{
    b_immediate, i_immediate, j_immediate, order, rd, rs1, rs2, s_immediate, shift_amount,
    u_immediate, word_shift_amount,
};
use crate::instr::Instr;
use pr_base::bits;

// The instruction of a word, in a format.
macro_rules! instruction {
    (R $name:ident $word:ident) => {
        Instr::$name { rd: rd($word), rs1: rs1($word), rs2: rs2($word) }
    };
    (I $name:ident $word:ident) => {
        Instr::$name { rd: rd($word), rs1: rs1($word), imm: i_immediate($word) }
    };
    (S $name:ident $word:ident) => {
        Instr::$name { rs1: rs1($word), rs2: rs2($word), imm: s_immediate($word) }
    };
    (B $name:ident $word:ident) => {
        Instr::$name { rs1: rs1($word), rs2: rs2($word), imm: b_immediate($word) }
    };
    (U $name:ident $word:ident) => {
        Instr::$name { rd: rd($word), imm: u_immediate($word) }
    };
    (J $name:ident $word:ident) => {
        Instr::$name { rd: rd($word), imm: j_immediate($word) }
    };
    (Shift6 $name:ident $word:ident) => {
        Instr::$name { rd: rd($word), rs1: rs1($word), imm: shift_amount($word) }
    };
    (Shift5 $name:ident $word:ident) => {
        Instr::$name { rd: rd($word), rs1: rs1($word), imm: word_shift_amount($word) }
    };
    (Plain $name:ident $word:ident) => {
        Instr::$name
    };
    (Amo $name:ident $word:ident) => {
        Instr::$name {
            rd: rd($word),
            rs1: rs1($word),
            rs2: rs2($word),
            order: order($word),
        }
    };
    (Lr $name:ident $word:ident) => {
        Instr::$name { rd: rd($word), rs1: rs1($word), order: order($word) }
    };
}

// The instruction of the first row that the word matches. A row has its mnemonic, the bits that are
// fixed, their values and its format.
macro_rules! first_match {
    ($word:ident; $($name:ident $mask:literal $value:literal $format:ident)*) => {{
        $(
            if $word & $mask == $value {
                return Some(instruction!($format $name $word));
            }
        )*
        None
    }};
}

/// The instruction of a word, `None` where it matches no row of the table.
#[inline(always)]
pub fn decode(w: u32) -> Option<Instr>
    ensures value { result ≡ decoded w }

    // A row that the word matches gives its instruction, and a word that matches none has none.
    ensures matched { All (λ r. Matches r w → result ≡ Some (instruction r.format w)) rows }
    ensures unmatched { IsNone result ↔ All (λ r. ¬ Matches r w) rows }
    ensures single { length (filter (is_match w) rows) ≤ 1 }

    // An instruction that was decoded is encoded to the word that it came from.
    ensures valid { IfSome result IsValid }
    ensures back { IfSome result (λ i. i ≢ Instr.Fence → encoded i ≡ w) }
{
    by_opcode(w)
}

#[inline(always)]
fn by_opcode(word: u32) -> Option<Instr>
    ensures { result ≡ decoded word }
{
    match bits::<6, 0>(word) {
        0x03 => load(word),
        0x0f => fence(word),
        0x13 => immediate(word),
        0x17 => auipc(word),
        0x1b => word_immediate(word),
        0x23 => store(word),
        0x2f => atomic(word),
        0x33 => register(word),
        0x37 => lui(word),
        0x3b => word_register(word),
        0x63 => branch(word),
        0x67 => jalr(word),
        0x6f => jal(word),
        0x73 => system(word),
        _ => None,
    }
}

#[inline(always)]
fn load(word: u32) -> Option<Instr>
    ensures { result ≡ first_match load_rows word }
{
    first_match! {
        word;
        Lb 0x0000707f 0x00000003 I
        Lh 0x0000707f 0x00001003 I
        Lw 0x0000707f 0x00002003 I
        Ld 0x0000707f 0x00003003 I
        Lbu 0x0000707f 0x00004003 I
        Lhu 0x0000707f 0x00005003 I
        Lwu 0x0000707f 0x00006003 I
    }
}

#[inline(always)]
fn fence(word: u32) -> Option<Instr>
    ensures { result ≡ first_match fence_rows word }
{
    first_match! {
        word;
        Fence 0x0000707f 0x0000000f Plain
    }
}

#[inline(always)]
fn immediate(word: u32) -> Option<Instr>
    ensures { result ≡ first_match immediate_rows word }
{
    first_match! {
        word;
        Addi 0x0000707f 0x00000013 I
        Slti 0x0000707f 0x00002013 I
        Sltiu 0x0000707f 0x00003013 I
        Xori 0x0000707f 0x00004013 I
        Ori 0x0000707f 0x00006013 I
        Andi 0x0000707f 0x00007013 I
        Slli 0xfc00707f 0x00001013 Shift6
        Srli 0xfc00707f 0x00005013 Shift6
        Srai 0xfc00707f 0x40005013 Shift6
    }
}

#[inline(always)]
fn auipc(word: u32) -> Option<Instr>
    ensures { result ≡ first_match auipc_rows word }
{
    first_match! {
        word;
        Auipc 0x0000007f 0x00000017 U
    }
}

#[inline(always)]
fn word_immediate(word: u32) -> Option<Instr>
    ensures { result ≡ first_match word_immediate_rows word }
{
    first_match! {
        word;
        Addiw 0x0000707f 0x0000001b I
        Slliw 0xfe00707f 0x0000101b Shift5
        Srliw 0xfe00707f 0x0000501b Shift5
        Sraiw 0xfe00707f 0x4000501b Shift5
    }
}

#[inline(always)]
fn store(word: u32) -> Option<Instr>
    ensures { result ≡ first_match store_rows word }
{
    first_match! {
        word;
        Sb 0x0000707f 0x00000023 S
        Sh 0x0000707f 0x00001023 S
        Sw 0x0000707f 0x00002023 S
        Sd 0x0000707f 0x00003023 S
    }
}

#[inline(never)]
fn atomic(word: u32) -> Option<Instr>
    ensures { result ≡ first_match atomic_rows word }
{
    first_match! {
        word;
        LrW 0xf9f0707f 0x1000202f Lr
        LrD 0xf9f0707f 0x1000302f Lr
        ScW 0xf800707f 0x1800202f Amo
        ScD 0xf800707f 0x1800302f Amo
        AmoswapW 0xf800707f 0x0800202f Amo
        AmoswapD 0xf800707f 0x0800302f Amo
        AmoaddW 0xf800707f 0x0000202f Amo
        AmoaddD 0xf800707f 0x0000302f Amo
        AmoxorW 0xf800707f 0x2000202f Amo
        AmoxorD 0xf800707f 0x2000302f Amo
        AmoandW 0xf800707f 0x6000202f Amo
        AmoandD 0xf800707f 0x6000302f Amo
        AmoorW 0xf800707f 0x4000202f Amo
        AmoorD 0xf800707f 0x4000302f Amo
        AmominW 0xf800707f 0x8000202f Amo
        AmominD 0xf800707f 0x8000302f Amo
        AmomaxW 0xf800707f 0xa000202f Amo
        AmomaxD 0xf800707f 0xa000302f Amo
        AmominuW 0xf800707f 0xc000202f Amo
        AmominuD 0xf800707f 0xc000302f Amo
        AmomaxuW 0xf800707f 0xe000202f Amo
        AmomaxuD 0xf800707f 0xe000302f Amo
    }
}

#[inline(always)]
fn register(word: u32) -> Option<Instr>
    ensures { result ≡ first_match register_rows word }
{
    first_match! {
        word;
        Add 0xfe00707f 0x00000033 R
        Sub 0xfe00707f 0x40000033 R
        Sll 0xfe00707f 0x00001033 R
        Slt 0xfe00707f 0x00002033 R
        Sltu 0xfe00707f 0x00003033 R
        Xor 0xfe00707f 0x00004033 R
        Srl 0xfe00707f 0x00005033 R
        Sra 0xfe00707f 0x40005033 R
        Or 0xfe00707f 0x00006033 R
        And 0xfe00707f 0x00007033 R
        Mul 0xfe00707f 0x02000033 R
        Mulh 0xfe00707f 0x02001033 R
        Mulhsu 0xfe00707f 0x02002033 R
        Mulhu 0xfe00707f 0x02003033 R
        Div 0xfe00707f 0x02004033 R
        Divu 0xfe00707f 0x02005033 R
        Rem 0xfe00707f 0x02006033 R
        Remu 0xfe00707f 0x02007033 R
    }
}

#[inline(always)]
fn lui(word: u32) -> Option<Instr>
    ensures { result ≡ first_match lui_rows word }
{
    first_match! {
        word;
        Lui 0x0000007f 0x00000037 U
    }
}

#[inline(always)]
fn word_register(word: u32) -> Option<Instr>
    ensures { result ≡ first_match word_register_rows word }
{
    first_match! {
        word;
        Addw 0xfe00707f 0x0000003b R
        Subw 0xfe00707f 0x4000003b R
        Sllw 0xfe00707f 0x0000103b R
        Srlw 0xfe00707f 0x0000503b R
        Sraw 0xfe00707f 0x4000503b R
        Mulw 0xfe00707f 0x0200003b R
        Divw 0xfe00707f 0x0200403b R
        Divuw 0xfe00707f 0x0200503b R
        Remw 0xfe00707f 0x0200603b R
        Remuw 0xfe00707f 0x0200703b R
    }
}

#[inline(always)]
fn branch(word: u32) -> Option<Instr>
    ensures { result ≡ first_match branch_rows word }
{
    first_match! {
        word;
        Beq 0x0000707f 0x00000063 B
        Bne 0x0000707f 0x00001063 B
        Blt 0x0000707f 0x00004063 B
        Bge 0x0000707f 0x00005063 B
        Bltu 0x0000707f 0x00006063 B
        Bgeu 0x0000707f 0x00007063 B
    }
}

#[inline(always)]
fn jalr(word: u32) -> Option<Instr>
    ensures { result ≡ first_match jalr_rows word }
{
    first_match! {
        word;
        Jalr 0x0000707f 0x00000067 I
    }
}

#[inline(always)]
fn jal(word: u32) -> Option<Instr>
    ensures { result ≡ first_match jal_rows word }
{
    first_match! {
        word;
        Jal 0x0000007f 0x0000006f J
    }
}

#[inline(always)]
fn system(word: u32) -> Option<Instr>
    ensures { result ≡ first_match system_rows word }
{
    first_match! {
        word;
        Ecall 0xffffffff 0x00000073 Plain
        Ebreak 0xffffffff 0x00100073 Plain
    }
}
