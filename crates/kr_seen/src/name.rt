//! Guest names of places, also of those in the process directory.
ghost use Rattle.std.specs.Prelude.{◌≡◌, ◌∷◌, ◌++◌, ℕ, List, codes, true, IfOk};
ghost use Rattle.std.specs.Fmt.{decimal};
ghost use Rattle.kr_ops.specs.pr_base.Paths.{below_root, text_of, AreNames};
ghost use Rattle.kr_ops.specs.kr_tree.Names.{process_names};
ghost use Rattle.kr_ops.specs.kr_view.Component.{is_process_directory};

use kr_ops::below::{ProcAt, proc_name};
use kr_walk::below::{Bytes, NoMemory};
use std::alloc::Global;

/// The bytes of a text below the root, which has none there.
fn below_the_root(text: Bytes) -> Bytes
    ensures { (names : List (List ℕ)) → AreNames names → text ≡ text_of names → result ≡ below_root names }
{
    let mut bytes = text;
    if bytes.len() == 1 {
        bytes.clear();
    }
    bytes
}

/// The bytes of an entry below the root, by those of its directory.
fn entered(directory: Bytes, name: &[u8]) -> Result<Bytes, NoMemory>
    ensures { IfOk result (λ entry. (names : List (List ℕ)) → directory ≡ below_root names → entry ≡ below_root (name.now ∷ names)) }
{
    let mut entry = directory;
    entry.append(b"/")?;
    entry.append(name)?;
    Ok(entry)
}

/// The bytes of the directory of a process below the root, by those of the process directory.
fn process_directory(alloc: Global, processes: Bytes, pid: u32) -> Result<Bytes, NoMemory>
    ensures { IfOk result (λ entry. (names : List (List ℕ)) → processes ≡ below_root names → entry ≡ below_root (decimal pid ∷ names)) }
{
    let name = proc_name(alloc, ProcAt::Dir(pid))?;
    entered(processes, name.as_slice())
}

/// The bytes of the directory of a process's descriptors below the root, by those of the process directory.
fn descriptor_directory(alloc: Global, processes: Bytes, pid: u32) -> Result<Bytes, NoMemory>
    ensures { IfOk result (λ entry. (names : List (List ℕ)) → processes ≡ below_root names → entry ≡ below_root (codes "fd" ∷ decimal pid ∷ names)) }
{
    let process = process_directory(alloc, processes, pid)?;
    entered(process, b"fd")
}

/// The text of a directory of the process directory, by the text of that.
pub(crate) fn text_below(alloc: Global, text: Bytes, at: ProcAt) -> Result<Bytes, NoMemory>
    requires { is_process_directory at ≡ true }
    ensures { IfOk result (λ below. (names : List (List ℕ)) → AreNames names → text ≡ text_of names → below ≡ text_of (process_names at ++ names)) }
{
    let processes = below_the_root(text);
    match at {
        ProcAt::Dir(pid) => process_directory(alloc, processes, pid),
        ProcAt::FdDir(pid) => descriptor_directory(alloc, processes, pid),
        ProcAt::SelfLink | ProcAt::Cwd(_) | ProcAt::Root(_) | ProcAt::Exe(_) | ProcAt::Fd(_, _) =>
            unreachable!(),
    }
}
