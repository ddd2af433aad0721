//! The guest's code, which is the same for all cases. A distance of a branch is counted in bytes, four of an instruction.

use rv_asm::below::Instr;

const ZERO: u8 = 0;

const S0: u8 = 8;

const S1: u8 = 9;

const A0: u8 = 10;

const A1: u8 = 11;

const A2: u8 = 12;

const A3: u8 = 13;

const A4: u8 = 14;

const A7: u8 = 17;

const S2: u8 = 18;

const S3: u8 = 19;

const S4: u8 = 20;

const S5: u8 = 21;

const S6: u8 = 22;

// An instruction, with its operands in the order of the assembler's.
macro_rules! instr {
    (addi $rd:expr, $rs1:expr, $imm:expr) => {
        Instr::Addi { rd: $rd, rs1: $rs1, imm: $imm }
    };
    (lui $rd:expr, $imm:expr) => {
        Instr::Lui { rd: $rd, imm: $imm }
    };
    (add $rd:expr, $rs1:expr, $rs2:expr) => {
        Instr::Add { rd: $rd, rs1: $rs1, rs2: $rs2 }
    };
    (beq $rs1:expr, $rs2:expr, $imm:expr) => {
        Instr::Beq { rs1: $rs1, rs2: $rs2, imm: $imm }
    };
    (bne $rs1:expr, $rs2:expr, $imm:expr) => {
        Instr::Bne { rs1: $rs1, rs2: $rs2, imm: $imm }
    };
    (blt $rs1:expr, $rs2:expr, $imm:expr) => {
        Instr::Blt { rs1: $rs1, rs2: $rs2, imm: $imm }
    };
    (ecall) => {
        Instr::Ecall
    };
}

// Three children are made. Each process has its own texts.
pub(crate) const SETUP: [Instr; 20] = [
    instr!(lui S0, 0x11000), // the texts of process 0, where the data begins
    instr!(lui S1, 0x16000), // the buffer, behind the texts
    instr!(addi S1, S1, -2048),
    instr!(lui S6, 0x1000), // how many bytes the texts of a process take: 64 times 72
    instr!(addi S6, S6, 512),
    instr!(addi S4, ZERO, 3), // children to be made
    instr!(add S0, S0, S6), // the texts of the next child
    instr!(addi A0, ZERO, 17), // clone(SIGCHLD, 0, 0, 0, 0)
    instr!(addi A1, ZERO, 0),
    instr!(addi A2, ZERO, 0),
    instr!(addi A3, ZERO, 0),
    instr!(addi A4, ZERO, 0),
    instr!(addi A7, ZERO, 220),
    instr!(ecall),
    instr!(addi S5, A0, 0), // 0 in a child
    instr!(beq S5, ZERO, 16), // a child goes on with its rounds
    instr!(addi S4, S4, -1),
    instr!(bne S4, ZERO, -44), // back to the next child
    instr!(lui S0, 0x11000), // the parent goes on with its own
    instr!(addi S2, ZERO, 64), // rounds to be made
];

// A round: the file is opened and read, and what was read is written.
pub(crate) const READ: [Instr; 20] = [
    instr!(addi A0, ZERO, -100), // openat(AT_FDCWD, file, O_RDONLY, 0)
    instr!(addi A1, S0, 0),
    instr!(addi A2, ZERO, 0),
    instr!(addi A3, ZERO, 0),
    instr!(addi A7, ZERO, 56),
    instr!(ecall),
    instr!(blt A0, ZERO, 56), // where that failed, nothing is read
    instr!(addi S3, A0, 0), // read(fd, buffer, 64)
    instr!(addi A1, S1, 0),
    instr!(addi A2, ZERO, 64),
    instr!(addi A7, ZERO, 63),
    instr!(ecall),
    instr!(addi A2, A0, 0), // write(1, buffer, what was read)
    instr!(addi A0, ZERO, 1),
    instr!(addi A1, S1, 0),
    instr!(addi A7, ZERO, 64),
    instr!(ecall),
    instr!(addi A0, S3, 0), // close(fd)
    instr!(addi A7, ZERO, 57),
    instr!(ecall),
];

// The file is renamed, and the empty file looked at.
pub(crate) const RENAME: [Instr; 16] = [
    instr!(addi A0, ZERO, -100), // renameat2(AT_FDCWD, file, AT_FDCWD, new name, 0)
    instr!(addi A1, S0, 0),
    instr!(addi A2, ZERO, -100),
    instr!(addi A3, S0, 24),
    instr!(addi A4, ZERO, 0),
    instr!(addi A7, ZERO, 276),
    instr!(ecall),
    instr!(addi A0, ZERO, -100), // newfstatat(AT_FDCWD, empty file, buffer, 0)
    instr!(addi A1, S0, 48),
    instr!(addi A2, S1, 0),
    instr!(addi A3, ZERO, 0),
    instr!(addi A7, ZERO, 79),
    instr!(ecall),
    instr!(addi S0, S0, 72), // the texts of the next round
    instr!(addi S2, S2, -1),
    instr!(bne S2, ZERO, -140), // back to the next round
];

// The parent waits for its children.
pub(crate) const END: [Instr; 13] = [
    instr!(beq S5, ZERO, 40), // a child waits for nobody
    instr!(addi S4, ZERO, 3), // children to be waited for
    instr!(addi A0, ZERO, -1), // wait4(-1, 0, 0, 0)
    instr!(addi A1, ZERO, 0),
    instr!(addi A2, ZERO, 0),
    instr!(addi A3, ZERO, 0),
    instr!(addi A7, ZERO, 260),
    instr!(ecall),
    instr!(addi S4, S4, -1),
    instr!(bne S4, ZERO, -28), // back to the next child
    instr!(addi A0, ZERO, 0), // exit(0)
    instr!(addi A7, ZERO, 93),
    instr!(ecall),
];
