use pr_gen::{Arg, ProbeStep, Show, Who, is_probe, probe};
use rv_cpu::below::pr_base::{Bytes, Texts, field_u32};
use std::alloc::Global;
use std::test::Fail;

// The words were written by clang and ld.lld 14, with the code at 0x10000 and its end at the next page,
// for what a reader of the disassembly sees: the start; step 0 behind a branch into it and a jump over
// it; step 1; the end; the routine that shows a number; the one that shows the buffer.
const WORDS: [u32; 87] = [
    0x0000_1417,
    0x0004_0413,
    0x4004_0413,
    0x4004_0413,
    0x0010_0493, // lla s0, end; ..
    0x0004_8463,
    0x03c0_006f, // beq s1, zero, .+8; jal zero, step 1
    0x0001_0537,
    0x0015_0513, // lui a0, 16; addi a0, a0, 1
    0x0000_15b7,
    0x0285_8593,
    0x0085_85b3, // lui a1, 1; addi a1, a1, 40; add a1, a1, s0
    0x0004_0613,
    0xfff0_0693,
    0x0000_0713,
    0x0000_0793, // addi a2, s0, 0; addi a3, zero, -1; ..
    0x0dc0_0893,
    0x0000_0073, // addi a7, zero, 220; ecall
    0x80a4_3023,
    0x0005_0493,
    0x0cc0_00ef, // sd a0, -2048(s0); addi s1, a0, 0; jal ra, buffer
    0x8004_3503, // ld a0, -2048(s0)
    0x1000_0593,
    0x00b5_9593,
    0x0005_8593,
    0x00b5_9593,
    0x0005_8593,
    0x00b5_9593,
    0x0005_8593,
    0x00b5_9593,
    0x0005_8593,
    0x00b5_9593,
    0x0055_8593, // addi a1, zero, 256; slli a1, a1, 11; ..
    0x0000_0613,
    0x0000_0693,
    0x0000_0713,
    0x0000_0793, // addi a2, zero, 0; ..
    0x0400_0893,
    0x0000_0073, // addi a7, zero, 64; ecall
    0x80a4_3423,
    0x0100_00ef, // sd a0, -2040(s0); jal ra, number
    0x0000_0513,
    0x05d0_0893,
    0x0000_0073, // addi a0, zero, 0; addi a7, zero, 93; ecall
    0x0000_12b7,
    0x0082_82b3,
    0x01f2_8293,
    0x00a0_0313,
    0x0062_8023,
    0x0005_0393,
    0x0005_5463,
    0x40a0_03b3,
    0x0263_fe33,
    0x030e_0e13,
    0xfff2_8293,
    0x01c2_8023,
    0x0263_d3b3,
    0xfe03_96e3,
    0x0005_5863,
    0xfff2_8293,
    0x02d0_0e13,
    0x01c2_8023,
    0x0002_8593,
    0x0000_1637,
    0x0086_0633,
    0x0206_0613,
    0x4056_0633,
    0x0010_0513,
    0x0400_0893,
    0x0000_0073,
    0x0000_8067, // a number
    0x0005_5463,
    0xf91f_f06f,
    0x0000_12b7,
    0x00a2_d463,
    0x0002_8513,
    0x0085_0333,
    0x0003_4383,
    0x00a0_0293,
    0x0053_0023,
    0x0015_0613,
    0x0004_0593,
    0x0010_0513,
    0x0400_0893,
    0x0000_0073,
    0x0073_0023,
    0x0000_8067, // the buffer
];

/// A call by a child of a number of two instructions, a text, the buffer and a negative number; then one
/// of its answer and a number of 64 bits.
fn two_steps(alloc: Global) -> Result<[ProbeStep; 2], Fail> {
    Ok([
        ProbeStep::Call {
            number: 220,
            args: [
                Arg::Num(65537),
                Arg::Text(Bytes::copy(alloc, b"text")?),
                Arg::Buf,
                Arg::Num(u64::MAX),
                Arg::Num(0),
                Arg::Num(0),
            ],
            who: Who::Child,
            show: Show::Content,
        },
        ProbeStep::Call {
            number: 64,
            args: [
                Arg::Answer(0),
                Arg::Num(0x8000_0000_0000_0005),
                Arg::Num(0),
                Arg::Num(0),
                Arg::Num(0),
                Arg::Num(0),
            ],
            who: Who::All,
            show: Show::Number,
        },
    ])
}

#[test]
fn code_is_that_of_an_assembler(rt: HostRuntime) -> Result<(), Fail> {
    let steps = two_steps(rt.alloc())?;
    assert!(rt; is_probe(&steps));
    let file = probe(rt.alloc(), &steps)?;
    for (k, word) in WORDS.iter().enumerate() {
        let here = field_u32(file.as_slice(), 4096 + 4 * k);
        assert!(rt; here == Some(*word), "word {k}");
    }
    assert!(rt; field_u32(file.as_slice(), 4096 + 4 * WORDS.len()) == Some(0));
    Ok(())
}
