use kr_ops::below::{
    CallFault, NoMemory, Regs, Request, Rights, Room, Space, Stat, WalkMode, decode, dirent_bytes,
    path_of, script_line, stat_bytes,
};
use std::alloc::Global;
use std::process::Abort;
use std::test::Fail;

/// AT_FDCWD, the working directory in place of a descriptor.
const HERE: u64 = 0xffff_ff9c;

/// A page of `a`, and a page of zeros whose last byte is `b`. Nothing else is mapped.
const PAGE_OF_A: u64 = 0x10000;

const ZEROS: u64 = 0x11000;

const LAST_BYTE: u64 = 0x11fff;

const UNMAPPED: u64 = 0x20000;

/// The last byte of the page of `a`, and so a text of one.
const ONE_A: u64 = 0x10fff;

fn memory(alloc: Global) -> Result<Space<0>, Fail> {
    let mut room = Room::new();
    let mut memory = Space::new(alloc);
    let rights = Rights {
        r: true,
        w: true,
        x: false,
    };
    memory.map(&mut room, PAGE_OF_A, 2, rights)?;
    memory.write(PAGE_OF_A, &[b'a'; 4096])?;
    memory.write(LAST_BYTE, b"b")?;
    Ok(memory)
}

fn registers(number: u64, arguments: [u64; 5]) -> Regs {
    let mut x = [0; 32];
    let [a0, a1, a2, a3, a4] = arguments;
    x[10] = a0;
    x[11] = a1;
    x[12] = a2;
    x[13] = a3;
    x[14] = a4;
    x[17] = number;
    Regs { x, pc: 0 }
}

/// The request of a call that must be read.
fn decoded(rt: &impl Abort, memory: &mut Space<0>, number: u64, arguments: [u64; 5]) -> Request {
    let request = decode(&registers(number, arguments), memory).ok();
    request.expect(rt, "decoded")
}

/// The number of the error that a call is refused with; 0 where it is read.
fn error_of(memory: &mut Space<0>, number: u64, arguments: [u64; 5]) -> Result<u16, NoMemory> {
    match decode(&registers(number, arguments), memory) {
        Ok(_request) => Ok(READ),
        Err(CallFault::Err(errno)) => Ok(errno.number()),
        Err(CallFault::NoMemory) => Err(NoMemory),
    }
}

/// The call is read.
const READ: u16 = 0;

// The numbers of errors, after errno(3).
const ENOENT: u16 = 2;

const EFAULT: u16 = 14;

const EINVAL: u16 = 22;

const ENAMETOOLONG: u16 = 36;

const ENOSYS: u16 = 38;

/// The high half of a register, which an argument of 32 bits doesn't have.
const HIGH: u64 = 0xffff_ffff_0000_0000;

/// Calls by their numbers and arguments, and the error of each. The rows are worked out from the manual's lists of errors.
const CALLS: &[(u64, [u64; 5], u16)] = &[
    // Bad arguments are refused before a text is looked for.
    (24, [3, HIGH | 3, 0, 0, 0], EINVAL),
    (24, [3, 4, 1, 0, 0], EINVAL),
    (46, [3, 1 << 63, 0, 0, 0], EINVAL),
    (48, [HERE, UNMAPPED, 8, 0, 0], EINVAL),
    (56, [HERE, UNMAPPED, 3, 0, 0], EINVAL),
    (56, [HERE, ZEROS, 0o200100, 0, 0], EINVAL),
    (35, [HERE, UNMAPPED, 0x400, 0, 0], EINVAL),
    (37, [HERE, UNMAPPED, HERE, UNMAPPED, 0x100], EINVAL),
    (54, [HERE, UNMAPPED, 1, 2, 0x200], EINVAL),
    (276, [HERE, UNMAPPED, HERE, UNMAPPED, 1], EINVAL),
    (59, [UNMAPPED, 1, 0, 0, 0], EINVAL),
    (78, [HERE, UNMAPPED, 0, HIGH, 0], EINVAL),
    (78, [HERE, PAGE_OF_A, 0, 0x8000_0000, 0], EINVAL),
    (79, [HERE, UNMAPPED, 0, 0x200, 0], EINVAL),
    (215, [0x1001, 1, 0, 0, 0], EINVAL),
    (215, [0x1000, 0, 0, 0, 0], EINVAL),
    (215, [0x1000, u64::MAX, 0, 0, 0], EINVAL),
    (222, [0, 0, 3, 0x22, 0], EINVAL),
    (222, [0, 1, 8, 0x22, 0], EINVAL),
    (222, [0, 1, 3, 0x21, 0], EINVAL),
    (222, [0, 1, 3, 0x02, 0], EINVAL),
    (222, [1, 1, 3, 0x32, 0], EINVAL),
    (226, [1, 1, 3, 0, 0], EINVAL),
    (226, [0, 1, 8, 0, 0], EINVAL),
    (260, [0, 0, 4, 0, 0], EINVAL),
    // Lawful ones are accepted.
    (23, [3, 0, 0, 0, 0], READ),
    (24, [3, 4, HIGH | 0o2000000, 0, 0], READ),
    (25, [3, 1030, u64::MAX, 0, 0], READ),
    (29, [3, 0, 0, 0, 0], READ),
    (46, [3, (1 << 63) - 1, 0, 0, 0], READ),
    (34, [HERE, ONE_A, 0o777, 0, 0], READ),
    (35, [HERE, ONE_A, HIGH | 0x200, 0, 0], READ),
    (36, [ONE_A, HERE, ONE_A, 0, 0], READ),
    (37, [HERE, ONE_A, HERE, ONE_A, 0x400], READ),
    (48, [HERE, ONE_A, 7, 0, 0], READ),
    (49, [ONE_A, 0, 0, 0, 0], READ),
    (53, [HERE, ONE_A, u64::MAX, 0, 0], READ),
    (54, [HERE, ZEROS, 1, 2, 0x1100], READ),
    (56, [HERE, ONE_A, 0o101, 0, 0], READ),
    (221, [ONE_A, UNMAPPED, UNMAPPED, 0, 0], READ),
    (276, [HERE, ONE_A, HERE, ONE_A, HIGH], READ),
    (59, [UNMAPPED, 0o2000000, 0, 0, 0], READ),
    (62, [3, u64::MAX, 9, 0, 0], READ),
    (66, [3, 0, u64::MAX, 0, 0], READ),
    (78, [HERE, PAGE_OF_A + 1, 0, 0x7fff_ffff, 0], READ),
    (93, [0, 0, 0, 0, 0], READ),
    (134, [0, 0, 0, 0, 0], READ),
    (215, [0x3f_ffff_e000, 0x1000, 0, 0, 0], READ),
    (220, [u64::MAX, 0, 0, 0, 0], READ),
    (222, [1, 1, 7, 0x22, 0], READ),
    (226, [0x1000, 0, 7, 0, 0], READ),
    (260, [0, 0, HIGH | 0xb, 0, 0], READ),
    // Texts are looked for last.
    (48, [HERE, UNMAPPED, HIGH | 7, 0, 0], EFAULT),
    (56, [HERE, LAST_BYTE, 0, 0, 0], EFAULT),
    (56, [HERE, PAGE_OF_A, 0, 0, 0], ENAMETOOLONG),
    (78, [HERE, ZEROS, 0, 1, 0], ENOENT),
    (79, [HERE, ZEROS, 0, 0x100, 0], ENOENT),
    (34, [HERE, UNMAPPED, 0, 0, 0], EFAULT),
    (36, [ONE_A, HERE, UNMAPPED, 0, 0], EFAULT),
    (36, [ZEROS, HERE, UNMAPPED, 0, 0], ENOENT),
    (37, [HERE, PAGE_OF_A, HERE, UNMAPPED, 0], ENAMETOOLONG),
    (54, [HERE, ZEROS, 1, 2, 0x100], ENOENT),
    (56, [HERE, ZEROS, 0o100, 0, 0], ENOENT),
    (221, [ZEROS, 0, 0, 0x1000, 0x1000], ENOENT),
    (276, [HERE, ONE_A, HERE, ZEROS, 0], ENOENT),
    (16, [0, 0, 0, 0, 0], ENOSYS),
    (HIGH | 64, [1, ZEROS, 1, 0, 0], ENOSYS),
];

#[test]
fn calls_are_read_or_refused(rt: HostRuntime) -> Result<(), Fail> {
    let mut memory = memory(rt.alloc())?;
    for (number, arguments, errno) in CALLS {
        let told = error_of(&mut memory, *number, *arguments)?;
        assert!(rt; told == *errno, "call {number}: {told}");
    }
    Ok(())
}

/// Whether a request is that of the call of this number with the arguments 1, 2 and 3. The numbers are those of the generic table of Linux; the
/// arguments stand in the order of the manual.
fn is_call(number: u64, request: &Request) -> bool {
    match number {
        17 => matches!(request, Request::Getcwd { buf: 1, size: 2 }),
        50 => matches!(request, Request::Fchdir { fd: 1 }),
        52 => matches!(request, Request::Fchmod { fd: 1, mode: 2 }),
        55 => matches!(
            request,
            Request::Fchown {
                fd: 1,
                uid: 2,
                gid: 3
            }
        ),
        96 => matches!(request, Request::SetTidAddress),
        134 => matches!(request, Request::RtSigaction),
        135 => matches!(request, Request::RtSigprocmask),
        166 => matches!(request, Request::Umask { m: 1 }),
        172 => matches!(request, Request::Getpid),
        173 => matches!(request, Request::Getppid),
        178 => matches!(request, Request::Gettid),
        _ => is_of_identity(number, request),
    }
}

/// The same of calls on users and groups.
fn is_of_identity(number: u64, request: &Request) -> bool {
    match number {
        143 => matches!(request, Request::Setregid { rgid: 1, egid: 2 }),
        144 => matches!(request, Request::Setgid { gid: 1 }),
        145 => matches!(request, Request::Setreuid { ruid: 1, euid: 2 }),
        146 => matches!(request, Request::Setuid { uid: 1 }),
        147 => matches!(
            request,
            Request::Setresuid {
                ruid: 1,
                euid: 2,
                suid: 3
            }
        ),
        148 => matches!(
            request,
            Request::Getresuid {
                ruid: 1,
                euid: 2,
                suid: 3
            }
        ),
        149 => matches!(
            request,
            Request::Setresgid {
                rgid: 1,
                egid: 2,
                sgid: 3
            }
        ),
        150 => matches!(
            request,
            Request::Getresgid {
                rgid: 1,
                egid: 2,
                sgid: 3
            }
        ),
        158 => matches!(request, Request::Getgroups { size: 1, list: 2 }),
        159 => matches!(request, Request::Setgroups { size: 1, list: 2 }),
        174 => matches!(request, Request::Getuid),
        175 => matches!(request, Request::Geteuid),
        176 => matches!(request, Request::Getgid),
        177 => matches!(request, Request::Getegid),
        _ => false,
    }
}

/// The numbers of those calls.
const NUMBERS: &[u64] = &[
    17, 50, 52, 55, 96, 134, 135, 143, 144, 145, 146, 147, 148, 149, 150, 158, 159, 166, 172, 173,
    174, 175, 176, 177, 178,
];

#[test]
fn calls_without_texts_are_told_by_their_numbers(rt: HostRuntime) -> Result<(), Fail> {
    let mut memory = memory(rt.alloc())?;
    for number in NUMBERS {
        let request = decoded(&rt, &mut memory, *number, [1, 2, 3, 4, 5]);
        assert!(rt; is_call(*number, &request), "call {number}");
    }
    Ok(())
}

/// What a walk is for, and the register of its text.
type Walk = Option<(WalkMode, u8)>;

const LOOK: Walk = Some((WalkMode::Look, 11));

const LINK: Walk = Some((WalkMode::LookLink, 11));

const NAME: Walk = Some((WalkMode::Name, 11));

const NEW: Walk = Some((WalkMode::Name, 13));

/// Calls by their numbers and arguments, and the walks along their paths. The modes are those of the manual: which calls follow a last link, and
/// which name an entry.
const PATHS: &[(u64, [u64; 5], Walk, Walk)] = &[
    (34, [HERE, ONE_A, 0, 0, 0], NAME, None),
    (35, [HERE, ONE_A, 0, 0, 0], NAME, None),
    (
        36,
        [ONE_A, HERE, ONE_A, 0, 0],
        Some((WalkMode::Name, 12)),
        None,
    ),
    (37, [HERE, ONE_A, HERE, ONE_A, 0], LINK, NEW),
    (37, [HERE, ONE_A, HERE, ONE_A, 0x400], LOOK, NEW),
    (49, [ONE_A, 0, 0, 0, 0], Some((WalkMode::Look, 10)), None),
    (53, [HERE, ONE_A, 0, 0, 0], LOOK, None),
    (54, [HERE, ONE_A, 0, 0, 0], LOOK, None),
    (54, [HERE, ONE_A, 0, 0, 0x100], LINK, None),
    (
        56,
        [HERE, ONE_A, 0o101, 0, 0],
        Some((WalkMode::Open, 11)),
        None,
    ),
    (56, [HERE, ONE_A, 0o301, 0, 0], NAME, None),
    (56, [HERE, ONE_A, 0o400100, 0, 0], NAME, None),
    (221, [ONE_A, 0, 0, 0, 0], Some((WalkMode::Look, 10)), None),
    (276, [HERE, ONE_A, HERE, ONE_A, 0], NAME, NEW),
    (57, [3, 0, 0, 0, 0], None, None),
];

#[test]
fn paths_have_their_modes(rt: HostRuntime) -> Result<(), Fail> {
    let mut memory = memory(rt.alloc())?;
    for (number, arguments, first, second) in PATHS {
        let request = decoded(&rt, &mut memory, *number, *arguments);
        for (k, want) in [(0, *first), (1, *second), (2, None)] {
            let found = path_of(&request, k).map(|path| (path.mode, path.register));
            assert!(rt; found == want, "path {k} of call {number}");
        }
    }
    Ok(())
}

// Flags that openat ignores are kept; a text of 4,095 bytes is the longest.
#[test]
fn texts_and_flags_are_kept(rt: HostRuntime) -> Result<(), Fail> {
    let mut memory = memory(rt.alloc())?;
    let ignored = [HERE, PAGE_OF_A + 1, 0x0840_8000, 0o1644, 0];
    let opened = decoded(&rt, &mut memory, 56, ignored);
    assert_path(&rt, &opened, WalkMode::Look, 4095);
    assert!(rt;
        matches!(
            &opened,
            Request::Openat {
                flags: 0x0840_8000,
                mode: 0o1644,
                ..
            }
        )
    );
    let linked = decoded(&rt, &mut memory, 56, [HERE, PAGE_OF_A + 1, 0o400000, 0, 0]);
    assert_path(&rt, &linked, WalkMode::LookLink, 4095);
    let shown = decoded(&rt, &mut memory, 79, [HERE, ZEROS, 0x3000, 0x1100, 0]);
    assert_path(&rt, &shown, WalkMode::LookLink, 0);
    Ok(())
}

fn assert_path(rt: &impl Abort, request: &Request, mode: WalkMode, length: usize) {
    assert!(rt; path_of(request, 1).is_none());
    let path = path_of(request, 0).expect(rt, "a path");
    assert!(rt; path.dirfd == -100 && path.register == 11);
    assert!(rt; path.mode == mode);
    assert!(rt; path.text.len() == length);
}

// The bytes are laid out by hand from stat(2) and getdents64(2) of Linux for 64 bits, and a script's line from execve(2).
#[test]
fn structures_are_those_of_the_manual(rt: HostRuntime) -> Result<(), Fail> {
    let stat = Stat {
        dev: 1,
        ino: 2,
        mode: 0o100644,
        nlink: 3,
        uid: 1000,
        gid: 1001,
        rdev: 4,
        size: 513,
        blksize: 4096,
        blocks: 2,
    };
    let bytes = stat_bytes(&stat);
    let expected = [
        (0, 1),
        (8, 2),
        (16, 0xa4),
        (17, 0x81),
        (20, 3),
        (24, 0xe8),
        (25, 3),
        (28, 0xe9),
        (29, 3),
        (32, 4),
        (48, 1),
        (49, 2),
        (57, 0x10),
        (64, 2),
    ];
    assert!(rt; bytes.iter().filter(|byte| **byte != 0).count() == 14);
    for (at, byte) in expected {
        assert!(rt; bytes.get(at) == Some(&byte), "byte {at}");
    }
    let entry = dirent_bytes(rt.alloc(), 0x0102, 3, 8, b"name")?;
    let laid = b"\x02\x01\0\0\0\0\0\0\x03\0\0\0\0\0\0\0\x18\0\x08name\0";
    assert!(rt; entry.as_slice() == laid.as_slice());
    assert!(rt; dirent_bytes(rt.alloc(), 1, 1, 4, b"names")?.len() == 32);
    let parts = script_line(b"#! /bin/sh  -e x \n");
    assert!(rt; parts == Some((b"/bin/sh".as_slice(), b"-e x".as_slice())));
    assert!(rt; script_line(b"#!\n").is_none());
    Ok(())
}
