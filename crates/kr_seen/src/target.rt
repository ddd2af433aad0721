//! What the links of the process directory lead to.
ghost use Rattle.std.specs.Prelude.{◌≡◌, [], is_some};
ghost use Rattle.kr_ops.specs.kr_model.State.{opened, process};
ghost use Rattle.kr_ops.specs.Meaning.{meaning};
ghost use Rattle.kr_ops.specs.Sound.{IsSound};
ghost use Rattle.kr_seen.specs.Targets.{process_target, opened_target_of, target_told};
ghost use Rattle.kr_seen.specs.Shown.{cwd_target, exe_target, Nothing, At};

use kr_ops::State;
use kr_ops::below::{Ino, Place, What};

/// What a link of the process directory leads to.
#[derive(Clone, Copy)]
pub enum Target<'a, T> {
    /// The process or descriptor isn't there.
    Nothing,
    /// A pipe or the console, which have no place.
    Unplaced(What),
    /// A place, with the entry that its object remembers; an empty name where it remembers none.
    At(Place<T>, Ino, &'a [u8]),
}

/// Whether a process lives.
pub fn lives<T: Copy, const M: u8>(state: &State<T, M>, pid: u32) -> bool
    requires { IsSound state.now }
    ensures { result ≡ is_some (process pid (meaning state.now)) }
{
    state.index_of(pid).is_some()
}

/// What the working directory of a process is.
pub fn cwd_of<T: Copy, const M: u8>(state: &State<T, M>, pid: u32) -> Target<'_, T>
    requires { IsSound state.now }
    ensures { target_told result ≡ process_target cwd_target pid (meaning state.now) }
{
    match state.index_of(pid) {
        Some(k) => Target::At(state.living[k].cwd, 0, b""),
        None => Target::Nothing,
    }
}

/// Where absolute paths of a process begin, in the mounts of whatever view.
pub fn root_of<T: Copy, U: Copy, const M: u8>(
    state: &State<T, M>,
    pid: u32,
    root: Place<U>,
) -> Target<'_, U>
    requires { IsSound state.now }
    ensures { target_told result ≡ process_target (λ p. At root 0 []) pid (meaning state.now) }
{
    if lives(state, pid) {
        Target::At(root, 0, b"")
    } else {
        Target::Nothing
    }
}

/// What the executable of a process is.
pub fn exe_of<T: Copy, const M: u8>(state: &State<T, M>, pid: u32) -> Target<'_, T>
    requires { IsSound state.now }
    ensures { target_told result ≡ process_target exe_target pid (meaning state.now) }
{
    match state.index_of(pid) {
        Some(k) => {
            let process = &state.living[k];
            Target::At(process.exe, process.exe_dir, process.exe_name.as_slice())
        }
        None => Target::Nothing,
    }
}

/// What is open under a descriptor of a process.
pub fn open_at<T: Copy, const M: u8>(state: &State<T, M>, pid: u32, fd: u32) -> Target<'_, T>
    requires { IsSound state.now }
    ensures { target_told result ≡ opened_target_of pid fd (meaning state.now) }
{
    match state.opened(pid, fd) {
        Some(opened) => match opened.place {
            Some(place) => Target::At(place, opened.dir, opened.name.as_slice()),
            None => Target::Unplaced(opened.what),
        },
        None => Target::Nothing,
    }
}
