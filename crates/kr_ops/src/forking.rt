//! New processes.
ghost use Rattle.std.specs.Prelude.{◌≡◌, ◌+◌, ◌<◌, ◌≤◌, ◌^◌, true, IfSome, IfOk, OnOk};
ghost use Rattle.law_lawful.specs.rv_mem.Memory.{page_count};
ghost use Rattle.law_lawful.specs.rv_mem.Pages.{allows_all};
ghost use Rattle.law_lawful.specs.rv_mem.declared.rights.Use.TheVariants.{Write};
ghost use Rattle.law_lawful.specs.kr_model.Applied.{child_regs, told};
ghost use Rattle.law_lawful.specs.kr_model.Change.{Fork};
ghost use Rattle.law_lawful.specs.kr_model.MemoryRows.{all_pages};
ghost use Rattle.law_lawful.specs.kr_model.State.{process};
ghost use Rattle.kr_ops.specs.Meaning.{meaning};
ghost use Rattle.kr_ops.specs.Making.{Makes};
ghost use Rattle.kr_ops.specs.Sound.{IsServed, IsSoundFor};

use crate::holding::{hold, hold_all};
use crate::state::{Process, State};
use law_lawful::below::{Bytes, MapFault, NoMemory, Regs, Space, StoreFault};

/// The register that holds the answer of a call, and that of the stack pointer.
const ANSWER: usize = 10;

const STACK_POINTER: usize = 2;

/// How many bytes an instruction has.
const INSTRUCTION: u64 = 4;

/// The registers of a child, behind its call with 0 as the answer. A stack pointer of 0 stands for the parent's.
fn child_regs(parent: &Regs, sp: u64) -> Regs
    ensures { result ≡ child_regs sp parent.now }
{
    let mut regs = *parent;
    regs.x[ANSWER] = 0;
    if sp != 0 {
        regs.x[STACK_POINTER] = sp;
    }
    regs.pc = regs.pc.wrapping_add(INSTRUCTION);
    regs
}

/// Writes a child's number into its memory, where an address is told.
fn tell<const M: u8>(mem: &mut Space<M>, at: Option<u64>, pid: u32) -> Result<(), NoMemory>
    requires { IfSome at (λ a. allows_all mem.old.pages a 4 Write ≡ true) }
    ensures told { OnOk result (mem.new ≡ record { pages = told pid at mem.old.pages; read_marked = mem.old.read_marked }) }
    ensures count { page_count mem.new.pages ≡ page_count mem.old.pages }
{
    let Some(at) = at else {
        return Ok(());
    };
    match mem.write(at, &pid.to_le_bytes()) {
        Ok(()) => Ok(()),
        Err(StoreFault::NoMemory) => Err(NoMemory),
        Err(StoreFault::BadAddress) => unreachable!(),
    }
}

impl<T: Copy, const M: u8> State<T, M> {
    /// Makes a child of a living process, as clone(2) does, and gives its number, the next one. It has the parent's descriptors, working
    /// directory, executable, break and umask, and a copy of its memory, in which its number is written at `told_at`.
    pub fn fork(&mut self, pid: u32, sp: u64, told_at: Option<u64>) -> Result<u32, NoMemory>
        requires caller { IsSoundFor pid self.old }
        requires numbers { self.old.next_pid + 1 < 2 ^ 32 }
        requires room { IfSome (process pid (meaning self.old)) (λ p. self.old.room + page_count p.image.memory.pages ≤ all_pages) }
        requires told { IfSome (process pid (meaning self.old)) (λ p. IfSome told_at (λ a. allows_all p.image.memory.pages a 4 Write ≡ true)) }
        ensures number { IfOk result (λ child. child ≡ self.old.next_pid) }
        ensures makes { IfOk result (λ child. Makes pid (Fork (record { pid = child; sp = sp; told_at = told_at })) self.old self.new) }
        ensures served { OnOk result (IsServed self.new) }
    {
        let Some(k) = self.index_of(pid) else {
            unreachable!();
        };
        let child = self.next_pid;
        let mut mem = match self.living[k].mem.fork(&mut self.room) {
            Ok(mem) => mem,
            Err(MapFault::NoMemory) => return Err(NoMemory),
            Err(MapFault::Full) => unreachable!(),
        };
        tell(&mut mem, told_at, child)?;
        let parent = &self.living[k];
        let exe_name = Bytes::copy(*self.living.allocator(), parent.exe_name.as_slice())?;
        hold_all(&mut self.tree, &self.files, &parent.descs);
        let descs = self.files.fork(&parent.descs)?;
        hold(&mut self.tree, Some(parent.cwd));
        hold(&mut self.tree, Some(parent.exe));
        let process = Process {
            pid: child,
            parent: pid,
            regs: child_regs(&parent.regs, sp),
            mem,
            brk_start: parent.brk_start,
            brk: parent.brk,
            descs,
            cwd: parent.cwd,
            exe: parent.exe,
            exe_dir: parent.exe_dir,
            exe_name,
            umask: parent.umask,
            waits: false,
        };
        self.living.reserve(1)?;
        self.living.push_reserved(process);
        self.next_pid = child + 1;
        Ok(child)
    }
}
