//! uname(2): the name of the system.
ghost use Rattle.std.specs.Prelude.{◌≡◌, ◌≢◌, ◌≤◌, ◌++◌, length, IfOk, OnOk};
ghost use Rattle.kr_seen.specs.kr_model.ProcessRows.{uname_bytes, uname_field, uname_row};
ghost use Rattle.kr_seen.specs.kr_model.declared.outcome.Outcome.TheVariants.{NoMemory as WantOfMemory};
ghost use Rattle.kr_seen.specs.kr_ops.Sound.{IsServed, IsSoundFor};
ghost use Rattle.kr_seen.specs.PerformedRows.{Performs};

use kr_seen::below::{Bytes, NoMemory, Outcome, State};
use kr_seen::caller;
use std::alloc::Global;

/// How many bytes a field has.
const FIELD: usize = 65;

/// uname(2): EFAULT.
pub fn uname<T: Copy, const M: u8>(state: &mut State<T, M>, pid: u32, buf: u64) -> Outcome
    requires { IsSoundFor pid state.old }
    ensures performs { Performs pid (λ k. uname_row buf) state.old state.new result }
    ensures served { result ≢ WantOfMemory → IsServed state.new }
{
    match names(*state.living.allocator()) {
        Ok(bytes) => caller::tell(state, pid, buf, bytes.as_slice(), 0),
        Err(NoMemory) => Outcome::NoMemory,
    }
}

/// The structure `utsname`.
fn names(alloc: Global) -> Result<Bytes, NoMemory>
    ensures { IfOk result (λ bytes. bytes ≡ uname_bytes) }
{
    let mut bytes = Bytes::new(alloc);
    put(&mut bytes, b"Linux")?;
    put(&mut bytes, b"proot")?;
    put(&mut bytes, b"6.1.0")?;
    put(&mut bytes, b"#1")?;
    put(&mut bytes, b"riscv64")?;
    put(&mut bytes, b"(none)")?;
    Ok(bytes)
}

/// Puts a text and zeros behind the bytes, a field together.
fn put(bytes: &mut Bytes, text: &[u8]) -> Result<(), NoMemory>
    requires { length text.now ≤ 65 }
    ensures { OnOk result (bytes.new ≡ bytes.old ++ uname_field text.now) }
{
    bytes.append(text)?;
    let zeros = [0; FIELD];
    bytes.append(&zeros[text.len()..])
}
