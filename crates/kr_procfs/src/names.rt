//! Names and texts.
ghost use Rattle.std.specs.Prelude.{◌≡◌, IfOk};
ghost use Rattle.std.specs.Fmt.{decimal};
ghost use Rattle.kr_procfs.specs.Objects.{own_name, pipe_text};

use kr_view::below::kr_tree::ProcAt;
use kr_view::below::pr_base::{Bytes, NoMemory};
use std::alloc::Global;

/// A number's decimal text.
fn decimal_text(alloc: Global, number: u32) -> Result<Bytes, NoMemory>
    ensures { IfOk result (λ text. text ≡ decimal number) }
{
    let text = format!(in alloc; "{number}")?;
    Ok(Bytes::from(text.into_bytes()))
}

/// The text of a descriptor's link that leads to a pipe, `pipe:[N]`.
pub fn pipe_text(alloc: Global, number: u32) -> Result<Bytes, NoMemory>
    ensures { IfOk result (λ text. text ≡ pipe_text number) }
{
    let text = format!(in alloc; "pipe:[{number}]")?;
    Ok(Bytes::from(text.into_bytes()))
}

/// The name under which an object stands in its directory: `self`, a process by its number, `cwd`, `root`, `exe`,
/// `fd`, and a descriptor by its number.
pub fn proc_name(alloc: Global, at: ProcAt) -> Result<Bytes, NoMemory>
    ensures { IfOk result (λ name. name ≡ own_name at) }
{
    match at {
        ProcAt::SelfLink => Bytes::copy(alloc, b"self"),
        ProcAt::Dir(pid) => decimal_text(alloc, pid),
        ProcAt::Cwd(_) => Bytes::copy(alloc, b"cwd"),
        ProcAt::Root(_) => Bytes::copy(alloc, b"root"),
        ProcAt::Exe(_) => Bytes::copy(alloc, b"exe"),
        ProcAt::FdDir(_) => Bytes::copy(alloc, b"fd"),
        ProcAt::Fd(_, fd) => decimal_text(alloc, fd),
    }
}
