//! The instructions.

/// An instruction of RV64I or of the extensions M and A, with a variant for each mnemonic.
///
/// `rd`, `rs1` and `rs2` are numbers of registers, below 32. `imm` is the immediate as the
/// instruction uses it: a number of bytes for loads, stores, jumps and branches, the whole upper part
/// with its twelve zeros for LUI and AUIPC, the amount for shifts. `order` has the bits `aq` (2) and
/// `rl` (1) of an atomic instruction, which order nothing here, where one instruction follows another.
#[derive(Clone, Copy)]
pub enum Instr {
    /// Load byte, sign-extended.
    Lb { rd: u8, rs1: u8, imm: i64 },
    /// Load halfword, sign-extended.
    Lh { rd: u8, rs1: u8, imm: i64 },
    /// Load word, sign-extended.
    Lw { rd: u8, rs1: u8, imm: i64 },
    /// Load doubleword.
    Ld { rd: u8, rs1: u8, imm: i64 },
    /// Load byte, zero-extended.
    Lbu { rd: u8, rs1: u8, imm: i64 },
    /// Load halfword, zero-extended.
    Lhu { rd: u8, rs1: u8, imm: i64 },
    /// Load word, zero-extended.
    Lwu { rd: u8, rs1: u8, imm: i64 },
    /// Order memory accesses. Its other bits say nothing here.
    Fence,
    /// Add immediate.
    Addi { rd: u8, rs1: u8, imm: i64 },
    /// Set if less than immediate, signed.
    Slti { rd: u8, rs1: u8, imm: i64 },
    /// Set if less than immediate, unsigned.
    Sltiu { rd: u8, rs1: u8, imm: i64 },
    /// Exclusive or with immediate.
    Xori { rd: u8, rs1: u8, imm: i64 },
    /// Or with immediate.
    Ori { rd: u8, rs1: u8, imm: i64 },
    /// And with immediate.
    Andi { rd: u8, rs1: u8, imm: i64 },
    /// Shift left by immediate.
    Slli { rd: u8, rs1: u8, imm: i64 },
    /// Shift right by immediate, zeros coming in.
    Srli { rd: u8, rs1: u8, imm: i64 },
    /// Shift right by immediate, copies of the sign bit coming in.
    Srai { rd: u8, rs1: u8, imm: i64 },
    /// Add upper immediate to the program counter.
    Auipc { rd: u8, imm: i64 },
    /// Add immediate, on 32 bits.
    Addiw { rd: u8, rs1: u8, imm: i64 },
    /// Shift left by immediate, on 32 bits.
    Slliw { rd: u8, rs1: u8, imm: i64 },
    /// Shift right by immediate, zeros coming in, on 32 bits.
    Srliw { rd: u8, rs1: u8, imm: i64 },
    /// Shift right by immediate, copies of the sign bit coming in, on 32 bits.
    Sraiw { rd: u8, rs1: u8, imm: i64 },
    /// Store byte.
    Sb { rs1: u8, rs2: u8, imm: i64 },
    /// Store halfword.
    Sh { rs1: u8, rs2: u8, imm: i64 },
    /// Store word.
    Sw { rs1: u8, rs2: u8, imm: i64 },
    /// Store doubleword.
    Sd { rs1: u8, rs2: u8, imm: i64 },
    /// Add.
    Add { rd: u8, rs1: u8, rs2: u8 },
    /// Subtract.
    Sub { rd: u8, rs1: u8, rs2: u8 },
    /// Shift left.
    Sll { rd: u8, rs1: u8, rs2: u8 },
    /// Set if less than, signed.
    Slt { rd: u8, rs1: u8, rs2: u8 },
    /// Set if less than, unsigned.
    Sltu { rd: u8, rs1: u8, rs2: u8 },
    /// Exclusive or.
    Xor { rd: u8, rs1: u8, rs2: u8 },
    /// Shift right, zeros coming in.
    Srl { rd: u8, rs1: u8, rs2: u8 },
    /// Shift right, copies of the sign bit coming in.
    Sra { rd: u8, rs1: u8, rs2: u8 },
    /// Or.
    Or { rd: u8, rs1: u8, rs2: u8 },
    /// And.
    And { rd: u8, rs1: u8, rs2: u8 },
    /// Multiply, the lower half of the product.
    Mul { rd: u8, rs1: u8, rs2: u8 },
    /// Multiply signed numbers, the upper half of the product.
    Mulh { rd: u8, rs1: u8, rs2: u8 },
    /// Multiply a signed by an unsigned number, the upper half of the product.
    Mulhsu { rd: u8, rs1: u8, rs2: u8 },
    /// Multiply unsigned numbers, the upper half of the product.
    Mulhu { rd: u8, rs1: u8, rs2: u8 },
    /// Divide signed numbers.
    Div { rd: u8, rs1: u8, rs2: u8 },
    /// Divide unsigned numbers.
    Divu { rd: u8, rs1: u8, rs2: u8 },
    /// Remainder of signed numbers.
    Rem { rd: u8, rs1: u8, rs2: u8 },
    /// Remainder of unsigned numbers.
    Remu { rd: u8, rs1: u8, rs2: u8 },
    /// Load upper immediate.
    Lui { rd: u8, imm: i64 },
    /// Add, on 32 bits.
    Addw { rd: u8, rs1: u8, rs2: u8 },
    /// Subtract, on 32 bits.
    Subw { rd: u8, rs1: u8, rs2: u8 },
    /// Shift left, on 32 bits.
    Sllw { rd: u8, rs1: u8, rs2: u8 },
    /// Shift right, zeros coming in, on 32 bits.
    Srlw { rd: u8, rs1: u8, rs2: u8 },
    /// Shift right, copies of the sign bit coming in, on 32 bits.
    Sraw { rd: u8, rs1: u8, rs2: u8 },
    /// Multiply, on 32 bits.
    Mulw { rd: u8, rs1: u8, rs2: u8 },
    /// Divide signed numbers, on 32 bits.
    Divw { rd: u8, rs1: u8, rs2: u8 },
    /// Divide unsigned numbers, on 32 bits.
    Divuw { rd: u8, rs1: u8, rs2: u8 },
    /// Remainder of signed numbers, on 32 bits.
    Remw { rd: u8, rs1: u8, rs2: u8 },
    /// Remainder of unsigned numbers, on 32 bits.
    Remuw { rd: u8, rs1: u8, rs2: u8 },
    /// Branch if equal.
    Beq { rs1: u8, rs2: u8, imm: i64 },
    /// Branch if not equal.
    Bne { rs1: u8, rs2: u8, imm: i64 },
    /// Branch if less than, signed.
    Blt { rs1: u8, rs2: u8, imm: i64 },
    /// Branch if greater or equal, signed.
    Bge { rs1: u8, rs2: u8, imm: i64 },
    /// Branch if less than, unsigned.
    Bltu { rs1: u8, rs2: u8, imm: i64 },
    /// Branch if greater or equal, unsigned.
    Bgeu { rs1: u8, rs2: u8, imm: i64 },
    /// Jump and link through a register.
    Jalr { rd: u8, rs1: u8, imm: i64 },
    /// Jump and link.
    Jal { rd: u8, imm: i64 },
    /// Call the execution environment.
    Ecall,
    /// Call the debugger.
    Ebreak,
    /// Load a word, sign-extended, and reserve it.
    LrW { rd: u8, rs1: u8, order: u8 },
    /// Load a doubleword and reserve it.
    LrD { rd: u8, rs1: u8, order: u8 },
    /// Store a word if it is reserved.
    ScW { rd: u8, rs1: u8, rs2: u8, order: u8 },
    /// Store a doubleword if it is reserved.
    ScD { rd: u8, rs1: u8, rs2: u8, order: u8 },
    /// Swap a register and a word in memory.
    AmoswapW { rd: u8, rs1: u8, rs2: u8, order: u8 },
    /// Swap a register and a doubleword in memory.
    AmoswapD { rd: u8, rs1: u8, rs2: u8, order: u8 },
    /// Add to a word in memory.
    AmoaddW { rd: u8, rs1: u8, rs2: u8, order: u8 },
    /// Add to a doubleword in memory.
    AmoaddD { rd: u8, rs1: u8, rs2: u8, order: u8 },
    /// Exclusive or with a word in memory.
    AmoxorW { rd: u8, rs1: u8, rs2: u8, order: u8 },
    /// Exclusive or with a doubleword in memory.
    AmoxorD { rd: u8, rs1: u8, rs2: u8, order: u8 },
    /// And with a word in memory.
    AmoandW { rd: u8, rs1: u8, rs2: u8, order: u8 },
    /// And with a doubleword in memory.
    AmoandD { rd: u8, rs1: u8, rs2: u8, order: u8 },
    /// Or with a word in memory.
    AmoorW { rd: u8, rs1: u8, rs2: u8, order: u8 },
    /// Or with a doubleword in memory.
    AmoorD { rd: u8, rs1: u8, rs2: u8, order: u8 },
    /// Minimum with a word in memory, signed.
    AmominW { rd: u8, rs1: u8, rs2: u8, order: u8 },
    /// Minimum with a doubleword in memory, signed.
    AmominD { rd: u8, rs1: u8, rs2: u8, order: u8 },
    /// Maximum with a word in memory, signed.
    AmomaxW { rd: u8, rs1: u8, rs2: u8, order: u8 },
    /// Maximum with a doubleword in memory, signed.
    AmomaxD { rd: u8, rs1: u8, rs2: u8, order: u8 },
    /// Minimum with a word in memory, unsigned.
    AmominuW { rd: u8, rs1: u8, rs2: u8, order: u8 },
    /// Minimum with a doubleword in memory, unsigned.
    AmominuD { rd: u8, rs1: u8, rs2: u8, order: u8 },
    /// Maximum with a word in memory, unsigned.
    AmomaxuW { rd: u8, rs1: u8, rs2: u8, order: u8 },
    /// Maximum with a doubleword in memory, unsigned.
    AmomaxuD { rd: u8, rs1: u8, rs2: u8, order: u8 },
}
