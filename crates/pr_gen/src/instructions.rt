//! Instructions as an assembler writes them, and the registers that a probe uses.

/// Zero.
pub(crate) const ZERO: u8 = 0;
/// Where a routine goes back to.
pub(crate) const RA: u8 = 1;

pub(crate) const SP: u8 = 2;

pub(crate) const T0: u8 = 5;

pub(crate) const T1: u8 = 6;

pub(crate) const T2: u8 = 7;

pub(crate) const T3: u8 = 28;
/// The buffer's address, from which all data is named.
pub(crate) const BUF: u8 = 8;
/// What the last clone answered. No call changes it: a process that comes from a clone has its own.
pub(crate) const CLONED: u8 = 9;

pub(crate) const A0: u8 = 10;

pub(crate) const A1: u8 = 11;

pub(crate) const A2: u8 = 12;

pub(crate) const A7: u8 = 17;

// An instruction, with its operands in the order of the assembler's: the register that is written
// first, and of a store the address last.
macro_rules! instr {
    (addi $rd:expr, $rs1:expr, $imm:expr) => {
        Instr::Addi { rd: $rd, rs1: $rs1, imm: $imm }
    };
    (slli $rd:expr, $rs1:expr, $imm:expr) => {
        Instr::Slli { rd: $rd, rs1: $rs1, imm: $imm }
    };
    (lui $rd:expr, $imm:expr) => {
        Instr::Lui { rd: $rd, imm: $imm }
    };
    (add $rd:expr, $rs1:expr, $rs2:expr) => {
        Instr::Add { rd: $rd, rs1: $rs1, rs2: $rs2 }
    };
    (sub $rd:expr, $rs1:expr, $rs2:expr) => {
        Instr::Sub { rd: $rd, rs1: $rs1, rs2: $rs2 }
    };
    (divu $rd:expr, $rs1:expr, $rs2:expr) => {
        Instr::Divu { rd: $rd, rs1: $rs1, rs2: $rs2 }
    };
    (remu $rd:expr, $rs1:expr, $rs2:expr) => {
        Instr::Remu { rd: $rd, rs1: $rs1, rs2: $rs2 }
    };
    (lbu $rd:expr, $imm:expr, $rs1:expr) => {
        Instr::Lbu { rd: $rd, rs1: $rs1, imm: $imm }
    };
    (ld $rd:expr, $imm:expr, $rs1:expr) => {
        Instr::Ld { rd: $rd, rs1: $rs1, imm: $imm }
    };
    (sb $rs2:expr, $imm:expr, $rs1:expr) => {
        Instr::Sb { rs1: $rs1, rs2: $rs2, imm: $imm }
    };
    (sd $rs2:expr, $imm:expr, $rs1:expr) => {
        Instr::Sd { rs1: $rs1, rs2: $rs2, imm: $imm }
    };
    (beq $rs1:expr, $rs2:expr, $imm:expr) => {
        Instr::Beq { rs1: $rs1, rs2: $rs2, imm: $imm }
    };
    (bne $rs1:expr, $rs2:expr, $imm:expr) => {
        Instr::Bne { rs1: $rs1, rs2: $rs2, imm: $imm }
    };
    (blt $rs1:expr, $rs2:expr, $imm:expr) => {
        Instr::Blt { rs1: $rs1, rs2: $rs2, imm: $imm }
    };
    (bge $rs1:expr, $rs2:expr, $imm:expr) => {
        Instr::Bge { rs1: $rs1, rs2: $rs2, imm: $imm }
    };
    (jalr $rd:expr, $imm:expr, $rs1:expr) => {
        Instr::Jalr { rd: $rd, rs1: $rs1, imm: $imm }
    };
    (ecall) => {
        Instr::Ecall
    };
}

pub(crate) use instr;
