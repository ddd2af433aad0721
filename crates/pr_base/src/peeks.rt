//! What a tracer may ask of the kernel that runs its process.

use crate::bytes::Bytes;
use crate::errno::Errno;
use crate::memory::NoMemory;

/// What stands at a host path.
#[derive(Clone, Copy, PartialEq)]
pub enum PeekKind {
    Dir,
    File,
    /// A link with a text, `self` of the process directory among them.
    Link,
    /// Another link of the process directory.
    Jump,
}

/// Why a peek wasn't answered.
#[derive(Clone, Copy)]
pub enum PeekFault {
    /// The kernel refused it.
    Err(Errno),
    NoMemory,
}

impl From<NoMemory> for PeekFault {
    ghost use Rattle.std.specs.Prelude.{◌≡◌};
    ghost use Rattle.pr_base.specs.declared.peeks.PeekFault.TheVariants as fault;

    ghost from_gives = { λ error fault_of. fault_of ≡ fault.NoMemory };

    fn from(_error: NoMemory) -> PeekFault {
        PeekFault::NoMemory
    }
}

/// What a descriptor is to a walk that starts there.
#[derive(Clone, Copy)]
pub enum BaseKind {
    /// It isn't open.
    Closed,
    /// A directory, one of the process directory too.
    Dir,
    /// Anything else that is open.
    Other,
}

/// What a tracer may ask of the kernel in the name of the process that made a call. A host path is one from
/// the root, and its last link isn't followed. No call changes what the calls answer; at most it is noted that a walk
/// looked up a name in the process directory.
pub trait Peeks {
    ghost use Rattle.std.specs.Prelude.{◌≡◌, ◌&&◌, Bool, IsTrue, IfOk};
    ghost use Rattle.pr_base.specs.Paths.{is_absolute};
    ghost use Rattle.pr_base.specs.Peeks.{Peeked, FrontsAreSteady, IsNoted, IsPeeked, NamesAreTexts, SteadyIsNoJump};

    /// What the kernel answers.
    ghost peeked: { Self → Peeked };

    /// What else the calls leave as it was.
    ghost Kept: { Type 0 };

    ghost kept: { Self → Kept };

    /// Whether the calls looked up no name in the process directory so far. That is all that a call may change.
    ghost unmet: { Self → Bool };

    /// The kind of what a host path leads to. It fails as the walk there does.
    fn kind(&mut self, host: &[u8]) -> Result<PeekKind, PeekFault>
        requires { IsTrue (is_absolute host.now) }
        ensures answer { IsPeeked ((peeked self.old).kind host.now) result }
        ensures same { peeked self.new ≡ peeked self.old }
        ensures noted { IsNoted (unmet self.old && (peeked self.old).steady host.now) (unmet self.new) result }
        ensures rest { kept self.new ≡ kept self.old };

    /// The text of the link to which a host path leads: of a link of the process directory the host name of its
    /// object, or ENOENT where that has none. EINVAL where it leads to no link.
    fn link_text(&mut self, host: &[u8]) -> Result<Bytes, PeekFault>
        requires { IsTrue (is_absolute host.now) }
        ensures answer { IsPeeked ((peeked self.old).link_text host.now) result }
        ensures same { peeked self.new ≡ peeked self.old }
        ensures noted { IsNoted (unmet self.old && (peeked self.old).steady host.now) (unmet self.new) result }
        ensures rest { kept self.new ≡ kept self.old };

    /// The first `n` bytes of the file to which a host path leads, or all bytes of a shorter one. EACCES where it
    /// leads to no regular file that the user may execute.
    fn head(&mut self, host: &[u8], n: u32) -> Result<Bytes, PeekFault>
        requires { IsTrue (is_absolute host.now) }
        ensures answer { IsPeeked ((peeked self.old).head host.now n) result }
        ensures same { peeked self.new ≡ peeked self.old }
        ensures noted { IsNoted (unmet self.old && (peeked self.old).steady host.now) (unmet self.new) result }
        ensures rest { kept self.new ≡ kept self.old };

    /// Whether the walk along a host path looks up no name in the process directory, wherever it ends. This one isn't
    /// noted.
    fn steady(&mut self, host: &[u8]) -> Result<bool, NoMemory>
        requires { IsTrue (is_absolute host.now) }
        ensures answer { IfOk result (λ steady. steady ≡ (peeked self.old).steady host.now) }
        ensures same { peeked self.new ≡ peeked self.old }
        ensures unmet { unmet self.new ≡ unmet self.old }
        ensures rest { kept self.new ≡ kept self.old };

    /// What a descriptor of a process is.
    fn base_kind(&mut self, pid: u32, fd: u32) -> BaseKind
        ensures answer { result ≡ (peeked self.old).base_kind pid fd }
        ensures same { peeked self.new ≡ peeked self.old }
        ensures unmet { unmet self.new ≡ unmet self.old }
        ensures rest { kept self.new ≡ kept self.old };

    /// The host name of what a descriptor of a process is open for; `None` exactly where there is none: it isn't
    /// open, its object has no name, or it is a pipe or the console.
    fn base_name(&mut self, pid: u32, fd: u32) -> Result<Option<Bytes>, NoMemory>
        ensures answer { IfOk result (λ name. name ≡ (peeked self.old).base_name pid fd) }
        ensures same { peeked self.new ≡ peeked self.old }
        ensures unmet { unmet self.new ≡ unmet self.old }
        ensures rest { kept self.new ≡ kept self.old };

    /// The host name of a process's working directory, if it has one.
    fn cwd_name(&mut self, pid: u32) -> Result<Option<Bytes>, NoMemory>
        ensures answer { IfOk result (λ name. name ≡ (peeked self.old).cwd_name pid) }
        ensures same { peeked self.new ≡ peeked self.old }
        ensures unmet { unmet self.new ≡ unmet self.old }
        ensures rest { kept self.new ≡ kept self.old };

    /// The host name of a process's executable, if it has one.
    fn exe_name(&mut self, pid: u32) -> Result<Option<Bytes>, NoMemory>
        ensures answer { IfOk result (λ name. name ≡ (peeked self.old).exe_name pid) }
        ensures same { peeked self.new ≡ peeked self.old }
        ensures unmet { unmet self.new ≡ unmet self.old }
        ensures rest { kept self.new ≡ kept self.old };

    /// A name that is there is a text of well-formed names from the root.
    ghost names_are_texts: { (p : Self) → NamesAreTexts (peeked p) };

    /// What stands at a steady host path is no link of the process directory.
    ghost steady_is_no_jump: { (p : Self) → SteadyIsNoJump (peeked p) };

    /// What stands in front of a steady host path is steady.
    ghost fronts_are_steady: { (p : Self) → FrontsAreSteady (peeked p) };
}
