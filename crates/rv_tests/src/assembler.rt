use rv_loops::below::{Asm, AsmFault, Instr};
use std::test::Fail;

// The bytes were written by clang and ld.lld 14 for this program, with its code at address 0:
//
//     start:  addi a0, zero, 1
//             bne  a0, a1, forward
//     back:   addi a1, a1, -1
//             beq  a1, zero, back
//             jal  ra, start
//             lla  a2, data
//             .ascii "hello"
//             .byte 0, 0, 0
//     forward: jal zero, data
//     data:   ecall
const ASSEMBLED: [u8; 44] = [
    0x13, 0x05, 0x10, 0x00, // addi
    0x63, 0x10, 0xb5, 0x02, // bne
    0x93, 0x85, 0xf5, 0xff, // addi
    0xe3, 0x8e, 0x05, 0xfe, // beq
    0xef, 0xf0, 0x1f, 0xff, // jal
    0x17, 0x06, 0x00, 0x00, 0x13, 0x06, 0x46, 0x01, // auipc, addi
    0x68, 0x65, 0x6c, 0x6c, 0x6f, 0x00, 0x00, 0x00, // hello
    0x6f, 0x00, 0x40, 0x00, // jal
    0x73, 0x00, 0x00, 0x00, // ecall
];

#[test]
fn code_is_that_of_an_assembler(rt: HostRuntime) -> Result<(), Fail> {
    let mut asm = Asm::new(rt.alloc());
    let start = asm.label()?;
    let forward = asm.label()?;
    let back = asm.label()?;
    let data = asm.label()?;
    asm.bind(start);
    asm.put(Instr::Addi {
        rd: 10,
        rs1: 0,
        imm: 1,
    })?;
    let unequal = Instr::Bne {
        rs1: 10,
        rs2: 11,
        imm: 1,
    };
    asm.branch(unequal, forward)?;
    asm.bind(back);
    asm.put(Instr::Addi {
        rd: 11,
        rs1: 11,
        imm: -1,
    })?;
    let zero = Instr::Beq {
        rs1: 11,
        rs2: 0,
        imm: i64::MIN,
    };
    asm.branch(zero, back)?;
    asm.jump(1, start)?;
    asm.address(12, data)?;
    asm.bytes(b"hello")?;
    asm.bind(forward);
    asm.jump(0, data)?;
    asm.bind(data);
    asm.put(Instr::Ecall)?;
    let code = asm.finish().ok().expect(&rt, "code");
    assert!(rt; code.as_slice() == ASSEMBLED.as_slice());
    Ok(())
}

// The words were written by the same assembler: an address 2,048 bytes ahead, one in the next page but
// one, and one behind.
#[test]
fn an_address_has_two_parts(rt: HostRuntime) -> Result<(), Fail> {
    let mut asm = Asm::new(rt.alloc());
    let near = asm.label()?;
    let far = asm.label()?;
    asm.address(12, near)?;
    asm.bytes(&[0; 2040])?;
    asm.bind(near);
    asm.address(13, far)?;
    asm.bytes(&[0; 6148])?;
    asm.bind(far);
    asm.address(31, near)?;
    let code = asm.finish().ok().expect(&rt, "code");
    let table = [
        (0, [0x17, 0x16, 0x00, 0x00, 0x13, 0x06, 0x06, 0x80]),
        (0x800, [0x97, 0x26, 0x00, 0x00, 0x93, 0x86, 0xc6, 0x80]),
        (0x200c, [0x97, 0xef, 0xff, 0xff, 0x93, 0x8f, 0x4f, 0x7f]),
    ];
    for (at, words) in table {
        let here = code.as_slice().get(at..at + 8);
        assert!(rt; here == Some(words.as_slice()), "at {at}");
    }
    Ok(())
}

#[test]
fn the_first_fault_is_told(rt: HostRuntime) -> Result<(), Fail> {
    let branch = Instr::Bltu {
        rs1: 5,
        rs2: 6,
        imm: 0,
    };

    let mut unbound = Asm::new(rt.alloc());
    let label = unbound.label()?;
    unbound.branch(branch, label)?;
    let fault = unbound.finish().err();
    assert!(rt; matches!(fault, Some(AsmFault::Unbound { label: 0 })));

    let mut far = Asm::new(rt.alloc());
    let label = far.label()?;
    far.branch(branch, label)?;
    far.bytes(&[0; 8000])?;
    far.bind(label);
    let fault = far.finish().err();
    assert!(rt; matches!(fault, Some(AsmFault::Far { label: 0 })));

    let mut both = Asm::new(rt.alloc());
    let behind = both.label()?;
    let nowhere = both.label()?;
    both.bind(behind);
    both.bytes(&[0; 8000])?;
    both.branch(branch, behind)?;
    both.jump(0, nowhere)?;
    let fault = both.finish().err();
    assert!(rt; matches!(fault, Some(AsmFault::Unbound { label: 1 })));
    Ok(())
}
