//! getcwd(2): the name of the working directory.
ghost use Rattle.std.specs.Prelude.{◌≢◌, [], length};
ghost use Rattle.kr_seen.specs.pr_base.declared.errno.Errno.TheVariants.{EFAULT};
ghost use Rattle.kr_seen.specs.rv_mem.Actions.{write_if_allowed};
ghost use Rattle.kr_seen.specs.kr_model.DirectoryRows.{getcwd_row, tell_directory};
ghost use Rattle.kr_seen.specs.kr_model.Operation.{directory_named};
ghost use Rattle.kr_seen.specs.kr_model.Reply.{done, refuse};
ghost use Rattle.kr_seen.specs.kr_model.declared.outcome.Outcome.TheVariants.{NoMemory as WantOfMemory};
ghost use Rattle.kr_seen.specs.kr_ops.Sound.{IsLawfulFor, IsServed, IsSoundFor};
ghost use Rattle.kr_seen.specs.PerformedRows.{Performs};
ghost use Rattle.kr_attributes.specs.Named.{seen_directory};

use crate::links::shown_text;
use kr_seen::below::{
    Bytes, Errno, NoMemory, Outcome, Places, ProcAt, State, StoreFault, lawful_states_are_sound,
};
use kr_seen::{caller, refused};

/// getcwd(2): ENOENT of what has no name, ERANGE where the name with its zero doesn't fit, EFAULT; its length with the zero.
pub fn getcwd<P: Places, const M: u8>(
    places: &P,
    state: &mut State<P::Mount, M>,
    pid: u32,
    buf: u64,
    size: u64,
) -> Outcome
    requires { IsLawfulFor P.number (P.mounts places.now) pid state.old }
    ensures performs { Performs pid (λ k. directory_named (seen_directory P.number (P.mounts places.now) pid state.old) (λ name. getcwd_row name buf size)) state.old state.new result }
    ensures served { result ≢ WantOfMemory → IsServed state.new }
{
    lawful_states_are_sound::<P::Mount, M>();
    match shown_text(places, state, pid, ProcAt::Cwd(pid)) {
        Ok(Some(name)) => tell_directory(state, pid, buf, size, name),
        Ok(None) => refused(Errno::ENOENT),
        Err(NoMemory) => Outcome::NoMemory,
    }
}

/// Writes a name and a zero behind it: ERANGE, EFAULT; how many bytes they are.
fn tell_directory<T: Copy, const M: u8>(
    state: &mut State<T, M>,
    pid: u32,
    buf: u64,
    size: u64,
    mut name: Bytes,
) -> Outcome
    requires { IsSoundFor pid state.old }
    ensures performs { Performs pid (λ k. tell_directory buf size name) state.old state.new result }
    ensures served { result ≢ WantOfMemory → IsServed state.new }
{
    if size <= name.as_slice().len() as u64 {
        return refused(Errno::ERANGE);
    }
    match name.append(b"\0") {
        Ok(()) => tell_name(state, pid, buf, name.as_slice()),
        Err(NoMemory) => Outcome::NoMemory,
    }
}

/// Writes bytes: EFAULT; how many they are.
fn tell_name<T: Copy, const M: u8>(
    state: &mut State<T, M>,
    pid: u32,
    buf: u64,
    bytes: &[u8],
) -> Outcome
    requires { IsSoundFor pid state.old }
    ensures performs { Performs pid (λ k. write_if_allowed buf bytes.now (refuse EFAULT) (done (length bytes.now) [])) state.old state.new result }
    ensures served { result ≢ WantOfMemory → IsServed state.new }
{
    match caller::write(state, pid, buf, bytes) {
        Ok(()) => Outcome::Answer(bytes.len() as i64),
        Err(StoreFault::BadAddress) => refused(Errno::EFAULT),
        Err(StoreFault::NoMemory) => Outcome::NoMemory,
    }
}
