//! The operands of an instruction and their places in its word.
ghost use Rattle.std.specs.Prelude.{◌≡◌, ◌<◌, ◌≤◌, ◌^◌, ◌↔◌, IsTrue};
ghost use Rattle.rv_table.specs.Encoding as spec;

use crate::instr::Instr;
use pr_base::bits;

/// What an instruction's word is made of.
#[derive(Clone, Copy)]
pub struct Layout {
    /// The bits that tell the instruction from others.
    pub fixed: u32,
    pub operands: Operands,
}

/// The operands of an instruction, by its format.
#[derive(Clone, Copy)]
pub enum Operands {
    /// Format R.
    Register { rd: u8, rs1: u8, rs2: u8 },
    /// Format I.
    Immediate { rd: u8, rs1: u8, imm: i64 },
    /// Format S.
    Store { rs1: u8, rs2: u8, imm: i64 },
    /// Format B.
    Branch { rs1: u8, rs2: u8, imm: i64 },
    /// Format U.
    Upper { rd: u8, imm: i64 },
    /// Format J.
    Jump { rd: u8, imm: i64 },
    /// Format I, with an amount of six bits.
    Shift { rd: u8, rs1: u8, imm: i64 },
    /// Format I, with an amount of five bits.
    WordShift { rd: u8, rs1: u8, imm: i64 },
    /// None.
    Fixed,
    /// Format R, with two bits for the order of accesses.
    Atomic { rd: u8, rs1: u8, rs2: u8, order: u8 },
    /// Format R, with two bits for the order of accesses and without a second register.
    Reserve { rd: u8, rs1: u8, order: u8 },
}

/// Whether `WIDTH` bits hold the number in two's complement.
fn fits<const WIDTH: u32>(imm: i64) -> bool
    requires some { 1 ≤ WIDTH }
    requires within { WIDTH ≤ 32 }
    ensures { IsTrue result ↔ spec.FitsWidth WIDTH imm }
{
    let sign_bit = 1i64 << (WIDTH - 1);
    (-sign_bit..sign_bit).contains(&imm)
}

/// The `WIDTH` bits that hold the number in two's complement.
fn unsigned<const WIDTH: u32>(imm: i64) -> u32
    requires some { 1 ≤ WIDTH }
    requires within { WIDTH ≤ 32 }
    requires fits { spec.FitsWidth WIDTH imm }
    ensures value { result ≡ spec.unsigned WIDTH imm }
    ensures fits { result < 2 ^ WIDTH }
{
    if imm >= 0 {
        imm as u32
    } else {
        ((1u64 << WIDTH) - imm.unsigned_abs()) as u32
    }
}

impl Operands {
    /// Whether each operand is in the range that its format has room for.
    pub fn are_in_range(self) -> bool
        ensures { IsTrue result ↔ spec.IsInRange self }
    {
        match self {
            Operands::Register { rd, rs1, rs2 } => rd < 32 && rs1 < 32 && rs2 < 32,
            Operands::Immediate { rd, rs1, imm } => rd < 32 && rs1 < 32 && fits::<12>(imm),
            Operands::Store { rs1, rs2, imm } => rs1 < 32 && rs2 < 32 && fits::<12>(imm),
            Operands::Branch { rs1, rs2, imm } => rs1 < 32
                && rs2 < 32
                && fits::<13>(imm)
                && imm % 2 == 0,
            Operands::Upper { rd, imm } => rd < 32 && fits::<32>(imm) && imm % (1 << 12) == 0,
            Operands::Jump { rd, imm } => rd < 32 && fits::<21>(imm) && imm % 2 == 0,
            Operands::Shift { rd, rs1, imm } => rd < 32 && rs1 < 32 && (0..64).contains(&imm),
            Operands::WordShift { rd, rs1, imm } => rd < 32 && rs1 < 32 && (0..32).contains(&imm),
            Operands::Fixed => true,
            Operands::Atomic {
                rd,
                rs1,
                rs2,
                order,
            } => rd < 32 && rs1 < 32 && rs2 < 32 && order < 4,
            Operands::Reserve { rd, rs1, order } => rd < 32 && rs1 < 32 && order < 4,
        }
    }

    /// The operands in their places, the fixed bits zero.
    pub fn placed(self) -> u32
        requires { spec.IsInRange self }
        ensures { result ≡ spec.placed self }
    {
        match self {
            Operands::Register { rd, rs1, rs2 } => registers(rd, rs1, rs2),
            Operands::Immediate { rd, rs1, imm } => registers(rd, rs1, 0)
                + (unsigned::<12>(imm) << 20),
            Operands::Store { rs1, rs2, imm } => {
                let n = unsigned::<12>(imm);
                registers(0, rs1, rs2) + (bits::<4, 0>(n) << 7) + (bits::<11, 5>(n) << 25)
            }
            Operands::Branch { rs1, rs2, imm } => {
                let n = unsigned::<13>(imm);
                registers(0, rs1, rs2)
                    + (bits::<11, 11>(n) << 7)
                    + (bits::<4, 1>(n) << 8)
                    + (bits::<10, 5>(n) << 25)
                    + (bits::<12, 12>(n) << 31)
            }
            Operands::Upper { rd, imm } => registers(rd, 0, 0)
                + (bits::<31, 12>(unsigned::<32>(imm)) << 12),
            Operands::Jump { rd, imm } => {
                let n = unsigned::<21>(imm);
                registers(rd, 0, 0)
                    + (bits::<19, 12>(n) << 12)
                    + (bits::<11, 11>(n) << 20)
                    + (bits::<10, 1>(n) << 21)
                    + (bits::<20, 20>(n) << 31)
            }
            Operands::Shift { rd, rs1, imm } => registers(rd, rs1, 0) + ((imm as u32) << 20),
            Operands::WordShift { rd, rs1, imm } => registers(rd, rs1, 0) + ((imm as u32) << 20),
            Operands::Fixed => 0,
            Operands::Atomic {
                rd,
                rs1,
                rs2,
                order,
            } => registers(rd, rs1, rs2) + (u32::from(order) << 25),
            Operands::Reserve { rd, rs1, order } => registers(rd, rs1, 0)
                + (u32::from(order) << 25),
        }
    }
}

/// The three registers in their places.
fn registers(rd: u8, rs1: u8, rs2: u8) -> u32
    requires rd { rd < 32 }
    requires rs1 { rs1 < 32 }
    requires rs2 { rs2 < 32 }
    ensures { result ≡ spec.registers rd rs1 rs2 }
{
    (u32::from(rd) << 7) + (u32::from(rs1) << 15) + (u32::from(rs2) << 20)
}

// One row for each mnemonic: the fixed bits of its word, and its operands. Other instructions go on to
// the next function.
macro_rules! layouts {
    ($instr:ident; $($name:ident $fixed:literal $format:ident { $($field:ident),* })*; $others:expr) => {
        match $instr {
            $(Instr::$name { $($field),* } => Layout {
                fixed: $fixed,
                operands: Operands::$format { $($field),* },
            },)*
            _ => $others,
        }
    };
}

/// What the word of an instruction is made of: the formats S, B, U and J and words without operands here.
pub fn layout_of(instr: Instr) -> Layout
    ensures { result ≡ spec.layout_of instr }
{
    layouts! {
        instr;
        Fence 0x0ff0000f Fixed {}
        Auipc 0x00000017 Upper { rd, imm }
        Sb 0x00000023 Store { rs1, rs2, imm }
        Sh 0x00001023 Store { rs1, rs2, imm }
        Sw 0x00002023 Store { rs1, rs2, imm }
        Sd 0x00003023 Store { rs1, rs2, imm }
        Lui 0x00000037 Upper { rd, imm }
        Beq 0x00000063 Branch { rs1, rs2, imm }
        Bne 0x00001063 Branch { rs1, rs2, imm }
        Blt 0x00004063 Branch { rs1, rs2, imm }
        Bge 0x00005063 Branch { rs1, rs2, imm }
        Bltu 0x00006063 Branch { rs1, rs2, imm }
        Bgeu 0x00007063 Branch { rs1, rs2, imm }
        Jal 0x0000006f Jump { rd, imm }
        Ecall 0x00000073 Fixed {}
        Ebreak 0x00100073 Fixed {}
        ; layout_of_immediate(instr)
    }
}

/// Format I.
fn layout_of_immediate(instr: Instr) -> Layout
    requires { spec.HasFormatIOrR (spec.layout_of instr).operands }
    ensures { result ≡ spec.layout_of instr }
{
    layouts! {
        instr;
        Lb 0x00000003 Immediate { rd, rs1, imm }
        Lh 0x00001003 Immediate { rd, rs1, imm }
        Lw 0x00002003 Immediate { rd, rs1, imm }
        Ld 0x00003003 Immediate { rd, rs1, imm }
        Lbu 0x00004003 Immediate { rd, rs1, imm }
        Lhu 0x00005003 Immediate { rd, rs1, imm }
        Lwu 0x00006003 Immediate { rd, rs1, imm }
        Addi 0x00000013 Immediate { rd, rs1, imm }
        Slti 0x00002013 Immediate { rd, rs1, imm }
        Sltiu 0x00003013 Immediate { rd, rs1, imm }
        Xori 0x00004013 Immediate { rd, rs1, imm }
        Ori 0x00006013 Immediate { rd, rs1, imm }
        Andi 0x00007013 Immediate { rd, rs1, imm }
        Slli 0x00001013 Shift { rd, rs1, imm }
        Srli 0x00005013 Shift { rd, rs1, imm }
        Srai 0x40005013 Shift { rd, rs1, imm }
        Addiw 0x0000001b Immediate { rd, rs1, imm }
        Slliw 0x0000101b WordShift { rd, rs1, imm }
        Srliw 0x0000501b WordShift { rd, rs1, imm }
        Sraiw 0x4000501b WordShift { rd, rs1, imm }
        Jalr 0x00000067 Immediate { rd, rs1, imm }
        ; layout_of_register(instr)
    }
}

/// Format R.
fn layout_of_register(instr: Instr) -> Layout
    requires { spec.HasFormatR (spec.layout_of instr).operands }
    ensures { result ≡ spec.layout_of instr }
{
    layouts! {
        instr;
        Add 0x00000033 Register { rd, rs1, rs2 }
        Sub 0x40000033 Register { rd, rs1, rs2 }
        Sll 0x00001033 Register { rd, rs1, rs2 }
        Slt 0x00002033 Register { rd, rs1, rs2 }
        Sltu 0x00003033 Register { rd, rs1, rs2 }
        Xor 0x00004033 Register { rd, rs1, rs2 }
        Srl 0x00005033 Register { rd, rs1, rs2 }
        Sra 0x40005033 Register { rd, rs1, rs2 }
        Or 0x00006033 Register { rd, rs1, rs2 }
        And 0x00007033 Register { rd, rs1, rs2 }
        Mul 0x02000033 Register { rd, rs1, rs2 }
        Mulh 0x02001033 Register { rd, rs1, rs2 }
        Mulhsu 0x02002033 Register { rd, rs1, rs2 }
        Mulhu 0x02003033 Register { rd, rs1, rs2 }
        Div 0x02004033 Register { rd, rs1, rs2 }
        Divu 0x02005033 Register { rd, rs1, rs2 }
        Rem 0x02006033 Register { rd, rs1, rs2 }
        Remu 0x02007033 Register { rd, rs1, rs2 }
        Addw 0x0000003b Register { rd, rs1, rs2 }
        Subw 0x4000003b Register { rd, rs1, rs2 }
        Sllw 0x0000103b Register { rd, rs1, rs2 }
        Srlw 0x0000503b Register { rd, rs1, rs2 }
        Sraw 0x4000503b Register { rd, rs1, rs2 }
        Mulw 0x0200003b Register { rd, rs1, rs2 }
        Divw 0x0200403b Register { rd, rs1, rs2 }
        Divuw 0x0200503b Register { rd, rs1, rs2 }
        Remw 0x0200603b Register { rd, rs1, rs2 }
        Remuw 0x0200703b Register { rd, rs1, rs2 }
        ; layout_of_atomic(instr)
    }
}

/// Atomic instructions.
fn layout_of_atomic(instr: Instr) -> Layout
    requires { spec.IsAtomic (spec.layout_of instr).operands }
    ensures { result ≡ spec.layout_of instr }
{
    layouts! {
        instr;
        LrW 0x1000202f Reserve { rd, rs1, order }
        LrD 0x1000302f Reserve { rd, rs1, order }
        ScW 0x1800202f Atomic { rd, rs1, rs2, order }
        ScD 0x1800302f Atomic { rd, rs1, rs2, order }
        AmoswapW 0x0800202f Atomic { rd, rs1, rs2, order }
        AmoswapD 0x0800302f Atomic { rd, rs1, rs2, order }
        AmoaddW 0x0000202f Atomic { rd, rs1, rs2, order }
        AmoaddD 0x0000302f Atomic { rd, rs1, rs2, order }
        AmoxorW 0x2000202f Atomic { rd, rs1, rs2, order }
        AmoxorD 0x2000302f Atomic { rd, rs1, rs2, order }
        AmoandW 0x6000202f Atomic { rd, rs1, rs2, order }
        AmoandD 0x6000302f Atomic { rd, rs1, rs2, order }
        AmoorW 0x4000202f Atomic { rd, rs1, rs2, order }
        AmoorD 0x4000302f Atomic { rd, rs1, rs2, order }
        AmominW 0x8000202f Atomic { rd, rs1, rs2, order }
        AmominD 0x8000302f Atomic { rd, rs1, rs2, order }
        AmomaxW 0xa000202f Atomic { rd, rs1, rs2, order }
        AmomaxD 0xa000302f Atomic { rd, rs1, rs2, order }
        AmominuW 0xc000202f Atomic { rd, rs1, rs2, order }
        AmominuD 0xc000302f Atomic { rd, rs1, rs2, order }
        AmomaxuW 0xe000202f Atomic { rd, rs1, rs2, order }
        AmomaxuD 0xe000302f Atomic { rd, rs1, rs2, order }
        ; unreachable!()
    }
}
