//! What walks over guest texts are tried on.
ghost use Rattle.std.specs.Prelude.{◌≢◌};

use crate::kernel::Told;
use crate::tables;
use crate::texts::is_text;
use crate::told::Stands;
use pt_results::below::{
    Canon, Edit, Errno, Last, NoMemory, Request, Table, Tags, Texts, WalkErr, WalkMode, Walker,
    rewrite,
};
use pt_results::{cwd_answer, link_answer};
use pt_script::{Expanded, expand};
use std::alloc::Global;

/// How a path ends: what stands last, whether a slash stands behind it, and whether it is there.
#[derive(Clone, Copy)]
pub struct End(pub Last, pub bool, pub bool);

/// What a walk answers: a guest text, its host text and index, and how the path ends; or why it fails.
#[derive(Clone, Copy)]
pub enum Want {
    At(&'static [u8], &'static [u8], u32, End),
    Refused(Errno),
}

/// A guest text, a path and a mode, and what the walk along the path from there answers.
pub type Case = (&'static [u8], &'static [u8], WalkMode, Want);

pub const THERE: End = End(Last::Name, false, true);

/// Whether an answer is the wanted one.
pub fn meets(answer: &Result<Canon, WalkErr>, want: Want) -> bool {
    match (answer, want) {
        (Ok(canon), Want::At(guest, host, index, end)) => {
            canon.guest.as_slice() == guest
                && canon.host.as_slice() == host
                && canon.index == index
                && canon.last == end.0
                && canon.slash == end.1
                && canon.exists == end.2
        }
        (Err(WalkErr::Err(errno)), Want::Refused(wanted)) => *errno == wanted,
        _ => false,
    }
}

/// A tracer's walks, on a kernel in memory. A pause stands, so that each walk is made anew.
#[derive(Drop)]
pub struct Bench {
    alloc: Global,
    walker: Walker,
    told: Told,
    tags: Tags,
    ghost paused: { walker.pauses ≢ 0 },
}

impl Bench {
    pub fn new(alloc: Global, table: Table, told: Told, tags: Tags) -> Result<Bench, NoMemory> {
        let mut walker = Walker::new(alloc, table)?;
        walker.pause();
        let bench = Bench {
            alloc,
            walker,
            told,
            tags,
        };
        Ok(bench)
    }

    /// The answer of a walk. What is no guest text is none to walk from.
    pub fn walk(&mut self, base: &[u8], path: &[u8], mode: WalkMode) -> Result<Canon, WalkErr> {
        if !is_text(self.alloc, base)? {
            return Err(WalkErr::Err(Errno::EINVAL));
        }
        self.walker
            .canon(&mut self.told, &self.tags, base, path, mode)
    }

    /// Whether a walk answers what it must.
    fn answers(&mut self, case: &Case) -> bool {
        let answer = self.walk(case.0, case.1, case.2);
        meets(&answer, case.3)
    }

    /// The first of these walks that doesn't answer what it must, if there is one.
    pub fn unmet<'a>(&mut self, cases: &'a [Case]) -> Option<&'a Case> {
        for case in cases {
            if !self.answers(case) {
                return Some(case);
            }
        }
        None
    }

    /// Sets how many calls of the kernel find memory.
    pub fn set_calls(&mut self, calls: u32) {
        self.told.set_calls(calls);
    }

    /// With how few calls of the kernel a path from the root has its answer.
    pub fn peeks(&mut self, path: &[u8]) -> Option<u32> {
        for calls in 0..64 {
            self.set_calls(calls);
            let answer = self.walk(b"/", path, WalkMode::Look);
            if !matches!(answer, Err(WalkErr::NoMemory)) {
                return Some(calls);
            }
        }
        None
    }

    /// The edit of a call.
    pub fn edit(&mut self, request: &Request) -> Result<Edit, NoMemory> {
        rewrite(
            self.alloc,
            &mut self.told,
            &mut self.walker,
            &self.tags,
            1,
            0x20_0001_0000,
            true,
            request,
        )
    }

    /// The answer of getcwd(2).
    pub fn directory(&mut self) -> Result<Edit, NoMemory> {
        cwd_answer(
            self.alloc,
            &mut self.told,
            &self.walker,
            &self.tags,
            1,
            64,
            0x3000,
        )
    }

    /// The answer of readlinkat(2).
    pub fn link(&mut self, request: &Request) -> Result<Option<Edit>, NoMemory> {
        link_answer(
            self.alloc,
            &mut self.told,
            &mut self.walker,
            &self.tags,
            1,
            request,
        )
    }

    /// What a program without arguments comes to.
    pub fn program(&mut self, path: &[u8]) -> Result<Expanded, WalkErr> {
        let args = Texts::new(self.alloc);
        expand(
            self.alloc,
            &mut self.told,
            &mut self.walker,
            &self.tags,
            1,
            path,
            args,
            0,
        )
    }
}

/// The directories of the tree, each of which can be searched.
const DIRS: &[&[u8]] = &[
    b"/data",
    b"/other",
    b"/other/x",
    b"/a",
    b"/proc",
    b"/proc/1",
    b"/proc/1/fd",
    b"/g",
    b"/g/a",
    b"/g/a/x",
    b"/g/a/b",
    b"/g/b",
    b"/g/mnt",
    b"/g/proc",
];

const FILES: &[&[u8]] = &[
    b"/data/n",
    b"/other/o",
    b"/new",
    b"/g/f",
    b"/g/h",
    b"/g/a/b/f",
    b"/g/mntx",
];

/// Links, and their texts.
const LINKS: &[(&[u8], &[u8])] = &[
    (b"/data/abs", b"/f"),
    (b"/data/up", b"/../../f"),
    (b"/data/out", b"../f"),
    (b"/data/dir", b"../a/"),
    (b"/data/lost", b"z"),
    (b"/g/out", b"/mnt/n"),
    (b"/g/in", b"mnt/n"),
    (b"/g/loop", b"loop"),
    (b"/g/empty", b""),
    (b"/proc/self", b"1"),
];

const JUMPS: &[&[u8]] = &[
    b"/proc/1/cwd",
    b"/proc/1/exe",
    b"/proc/1/root",
    b"/proc/1/fd/3",
    b"/proc/1/fd/4",
    b"/proc/1/fd/5",
    b"/proc/1/fd/7",
];

/// A kernel with the tree of which these tests speak.
pub fn listed(alloc: Global) -> Result<Told, NoMemory> {
    let mut told = without_jumps(alloc)?;
    for jump in JUMPS {
        told.add(jump, Stands::Jump)?;
    }
    Ok(told)
}

/// One with this tree but for the links of the process directory, so that all its paths are steady.
pub fn without_jumps(alloc: Global) -> Result<Told, NoMemory> {
    let mut told = Told::new(alloc, 1_000_000);
    told.add_root()?;
    for dir in DIRS {
        told.add_dir(dir, Stands::Dir)?;
    }
    told.add_dir(b"/g/closed", Stands::Fails(Errno::EACCES))?;
    for file in FILES {
        told.add(file, Stands::File)?;
    }
    for link in LINKS {
        told.add_link(link.0, link.1)?;
    }
    Ok(told)
}

/// With how few calls of the kernel a path from the root has its answer, by a walker that remembers nothing yet: its peeks, and what is asked of
/// whether it is steady.
pub fn calls_of_first(alloc: Global, path: &[u8]) -> Result<Option<u32>, NoMemory> {
    let mut told = without_jumps(alloc)?;
    let tags = Tags::new(alloc);
    for calls in 0..64 {
        let table = tables::one_binding(alloc)?;
        let mut walker = Walker::new(alloc, table)?;
        told.set_calls(calls);
        let answer = walker.canon(&mut told, &tags, b"/", path, WalkMode::Look);
        if !matches!(answer, Err(WalkErr::NoMemory)) {
            return Ok(Some(calls));
        }
    }
    Ok(None)
}
