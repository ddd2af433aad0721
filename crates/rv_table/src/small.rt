//! Instructions in eight bytes.
ghost use Rattle.std.specs.Prelude.{◌≡◌, Some, IfSome, IsSome, IsTrue};
ghost use Rattle.rv_table.specs.Small.{instr_of};
ghost use Rattle.rv_table.specs.Encoding.{IsValid, FitsWidth, IsBelow};

use crate::instr::Instr;

// The instruction in eight bytes, by formats.
macro_rules! narrowed {
    (
        $i:ident;
        Register: $($register:ident)*;
        Immediate: $($immediate:ident)*;
        Shift: $($shift:ident)*;
        WordShift: $($word_shift:ident)*;
        Upper: $($upper:ident)*;
        Store: $($store:ident)*;
        Branch: $($branch:ident)*;
        Jump: $($jump:ident)*;
        Atomic: $($atomic:ident)*;
        Reserve: $($reserve:ident)*;
        Fixed: $($fixed:ident)*;
    ) => {
        match $i {
            $(Instr::$register { rd, rs1, rs2 } => Small::$register { rd, rs1, rs2 },)*
            $(Instr::$immediate { rd, rs1, imm } => Small::$immediate { rd, rs1, imm: short(imm) },)*
            $(Instr::$shift { rd, rs1, imm } => Small::$shift { rd, rs1, imm: amount(imm) },)*
            $(Instr::$word_shift { rd, rs1, imm } => Small::$word_shift { rd, rs1, imm: word_amount(imm) },)*
            $(Instr::$upper { rd, imm } => Small::$upper { rd, imm: narrow(imm) },)*
            $(Instr::$store { rs1, rs2, imm } => Small::$store { rs1, rs2, imm: short(imm) },)*
            $(Instr::$branch { rs1, rs2, imm } => Small::$branch { rs1, rs2, imm: near(imm) },)*
            $(Instr::$jump { rd, imm } => Small::$jump { rd, imm: far(imm) },)*
            $(Instr::$atomic { rd, rs1, rs2, order } => Small::$atomic { rd, rs1, rs2, order },)*
            $(Instr::$reserve { rd, rs1, order } => Small::$reserve { rd, rs1, order },)*
            $(Instr::$fixed => Small::$fixed,)*
        }
    };
}

/// An instruction in the eight bytes in which it is kept where it was decoded, or none: the variants of `Instr`, with immediates
/// of 32 bits, which those of every instruction of a word fit.
#[derive(Clone, Copy)]
pub enum Small {
    Nothing,
    Lb { rd: u8, rs1: u8, imm: i32 },
    Lh { rd: u8, rs1: u8, imm: i32 },
    Lw { rd: u8, rs1: u8, imm: i32 },
    Ld { rd: u8, rs1: u8, imm: i32 },
    Lbu { rd: u8, rs1: u8, imm: i32 },
    Lhu { rd: u8, rs1: u8, imm: i32 },
    Lwu { rd: u8, rs1: u8, imm: i32 },
    Fence,
    Addi { rd: u8, rs1: u8, imm: i32 },
    Slti { rd: u8, rs1: u8, imm: i32 },
    Sltiu { rd: u8, rs1: u8, imm: i32 },
    Xori { rd: u8, rs1: u8, imm: i32 },
    Ori { rd: u8, rs1: u8, imm: i32 },
    Andi { rd: u8, rs1: u8, imm: i32 },
    Slli { rd: u8, rs1: u8, imm: i32 },
    Srli { rd: u8, rs1: u8, imm: i32 },
    Srai { rd: u8, rs1: u8, imm: i32 },
    Auipc { rd: u8, imm: i32 },
    Addiw { rd: u8, rs1: u8, imm: i32 },
    Slliw { rd: u8, rs1: u8, imm: i32 },
    Srliw { rd: u8, rs1: u8, imm: i32 },
    Sraiw { rd: u8, rs1: u8, imm: i32 },
    Sb { rs1: u8, rs2: u8, imm: i32 },
    Sh { rs1: u8, rs2: u8, imm: i32 },
    Sw { rs1: u8, rs2: u8, imm: i32 },
    Sd { rs1: u8, rs2: u8, imm: i32 },
    Add { rd: u8, rs1: u8, rs2: u8 },
    Sub { rd: u8, rs1: u8, rs2: u8 },
    Sll { rd: u8, rs1: u8, rs2: u8 },
    Slt { rd: u8, rs1: u8, rs2: u8 },
    Sltu { rd: u8, rs1: u8, rs2: u8 },
    Xor { rd: u8, rs1: u8, rs2: u8 },
    Srl { rd: u8, rs1: u8, rs2: u8 },
    Sra { rd: u8, rs1: u8, rs2: u8 },
    Or { rd: u8, rs1: u8, rs2: u8 },
    And { rd: u8, rs1: u8, rs2: u8 },
    Mul { rd: u8, rs1: u8, rs2: u8 },
    Mulh { rd: u8, rs1: u8, rs2: u8 },
    Mulhsu { rd: u8, rs1: u8, rs2: u8 },
    Mulhu { rd: u8, rs1: u8, rs2: u8 },
    Div { rd: u8, rs1: u8, rs2: u8 },
    Divu { rd: u8, rs1: u8, rs2: u8 },
    Rem { rd: u8, rs1: u8, rs2: u8 },
    Remu { rd: u8, rs1: u8, rs2: u8 },
    Lui { rd: u8, imm: i32 },
    Addw { rd: u8, rs1: u8, rs2: u8 },
    Subw { rd: u8, rs1: u8, rs2: u8 },
    Sllw { rd: u8, rs1: u8, rs2: u8 },
    Srlw { rd: u8, rs1: u8, rs2: u8 },
    Sraw { rd: u8, rs1: u8, rs2: u8 },
    Mulw { rd: u8, rs1: u8, rs2: u8 },
    Divw { rd: u8, rs1: u8, rs2: u8 },
    Divuw { rd: u8, rs1: u8, rs2: u8 },
    Remw { rd: u8, rs1: u8, rs2: u8 },
    Remuw { rd: u8, rs1: u8, rs2: u8 },
    Beq { rs1: u8, rs2: u8, imm: i32 },
    Bne { rs1: u8, rs2: u8, imm: i32 },
    Blt { rs1: u8, rs2: u8, imm: i32 },
    Bge { rs1: u8, rs2: u8, imm: i32 },
    Bltu { rs1: u8, rs2: u8, imm: i32 },
    Bgeu { rs1: u8, rs2: u8, imm: i32 },
    Jalr { rd: u8, rs1: u8, imm: i32 },
    Jal { rd: u8, imm: i32 },
    Ecall,
    Ebreak,
    LrW { rd: u8, rs1: u8, order: u8 },
    LrD { rd: u8, rs1: u8, order: u8 },
    ScW { rd: u8, rs1: u8, rs2: u8, order: u8 },
    ScD { rd: u8, rs1: u8, rs2: u8, order: u8 },
    AmoswapW { rd: u8, rs1: u8, rs2: u8, order: u8 },
    AmoswapD { rd: u8, rs1: u8, rs2: u8, order: u8 },
    AmoaddW { rd: u8, rs1: u8, rs2: u8, order: u8 },
    AmoaddD { rd: u8, rs1: u8, rs2: u8, order: u8 },
    AmoxorW { rd: u8, rs1: u8, rs2: u8, order: u8 },
    AmoxorD { rd: u8, rs1: u8, rs2: u8, order: u8 },
    AmoandW { rd: u8, rs1: u8, rs2: u8, order: u8 },
    AmoandD { rd: u8, rs1: u8, rs2: u8, order: u8 },
    AmoorW { rd: u8, rs1: u8, rs2: u8, order: u8 },
    AmoorD { rd: u8, rs1: u8, rs2: u8, order: u8 },
    AmominW { rd: u8, rs1: u8, rs2: u8, order: u8 },
    AmominD { rd: u8, rs1: u8, rs2: u8, order: u8 },
    AmomaxW { rd: u8, rs1: u8, rs2: u8, order: u8 },
    AmomaxD { rd: u8, rs1: u8, rs2: u8, order: u8 },
    AmominuW { rd: u8, rs1: u8, rs2: u8, order: u8 },
    AmominuD { rd: u8, rs1: u8, rs2: u8, order: u8 },
    AmomaxuW { rd: u8, rs1: u8, rs2: u8, order: u8 },
    AmomaxuD { rd: u8, rs1: u8, rs2: u8, order: u8 },
}

impl Small {
    /// What was decoded, which fits.
    pub fn of(found: Option<Instr>) -> Small
        requires { IfSome found IsValid }
        ensures { instr_of result ≡ found }
    {
        match found {
            Some(i) => of_instr(i),
            None => Small::Nothing,
        }
    }

    /// Whether it is an instruction.
    #[inline(always)]
    pub fn is_instr(self) -> bool
        ensures { IsTrue result → IsSome (instr_of self) }
    {
        !matches!(self, Small::Nothing)
    }
}

fn of_instr(i: Instr) -> Small
    requires { IsValid i }
    ensures { instr_of result ≡ Some i }
{
    narrowed! {
        i;
        Register: Add Sub Sll Slt Sltu Xor Srl Sra Or And Mul Mulh Mulhsu Mulhu Div Divu Rem
            Remu Addw Subw Sllw Srlw Sraw Mulw Divw Divuw Remw Remuw;
        Immediate: Lb Lh Lw Ld Lbu Lhu Lwu Addi Slti Sltiu Xori Ori Andi Addiw Jalr;
        Shift: Slli Srli Srai;
        WordShift: Slliw Srliw Sraiw;
        Upper: Auipc Lui;
        Store: Sb Sh Sw Sd;
        Branch: Beq Bne Blt Bge Bltu Bgeu;
        Jump: Jal;
        Atomic: ScW ScD AmoswapW AmoswapD AmoaddW AmoaddD AmoxorW AmoxorD AmoandW AmoandD
            AmoorW AmoorD AmominW AmominD AmomaxW AmomaxD AmominuW AmominuD AmomaxuW
            AmomaxuD;
        Reserve: LrW LrD;
        Fixed: Fence Ecall Ebreak;
    }
}

/// An immediate of 32 bits.
fn narrow(imm: i64) -> i32
    requires { FitsWidth 32 imm }
    ensures { result ≡ imm }
{
    imm as i32
}

/// An immediate of 12 bits.
fn short(imm: i64) -> i32
    requires { FitsWidth 12 imm }
    ensures { result ≡ imm }
{
    narrow(imm)
}

/// The distance of a branch.
fn near(imm: i64) -> i32
    requires { FitsWidth 13 imm }
    ensures { result ≡ imm }
{
    narrow(imm)
}

/// The distance of a jump.
fn far(imm: i64) -> i32
    requires { FitsWidth 21 imm }
    ensures { result ≡ imm }
{
    narrow(imm)
}

/// The amount of a shift.
fn amount(imm: i64) -> i32
    requires { IsBelow 64 imm }
    ensures { result ≡ imm }
{
    narrow(imm)
}

/// The amount of a shift of 32 bits.
fn word_amount(imm: i64) -> i32
    requires { IsBelow 32 imm }
    ensures { result ≡ imm }
{
    narrow(imm)
}
