//! What calls ask of descriptors and of the caller.
ghost use Rattle.std.specs.Prelude.{◌≡◌, ℕ, IfNone, IfSome};
ghost use Rattle.std.specs.Option.{option_map};
ghost use Rattle.kr_seen.specs.pr_base.declared.errno.Errno.TheVariants.{EBADF};
ghost use Rattle.kr_seen.specs.kr_view.Component.{is_process_directory};
ghost use Rattle.kr_seen.specs.kr_files.declared.opened.Opened.{Opened};
ghost use Rattle.kr_seen.specs.kr_model.Asking.{descriptor_number, is_working_directory, or_badf};
ghost use Rattle.kr_seen.specs.kr_model.Known.{known};
ghost use Rattle.kr_seen.specs.kr_model.Reply.{Replying, refuse};
ghost use Rattle.kr_seen.specs.kr_model.State.{image_layout};
ghost use Rattle.kr_seen.specs.kr_ops.Meaning.{meaning};
ghost use Rattle.kr_seen.specs.kr_ops.Sound.{IsSound, IsSoundFor};
ghost use Rattle.kr_attributes.specs.Found.{IsOpenAs};

use kr_seen::below::{AT_FDCWD, Host, Place, ProcAt, State, What};

/// What is open under a descriptor: its number, the object of the host where it has a place, and its kind.
#[derive(Clone, Copy)]
pub(crate) struct OpenObject {
    pub(crate) number: u32,
    pub(crate) host: Option<Host>,
    pub(crate) what: What,
}

/// What is open under a descriptor of a process, `None` exactly where nothing is.
pub(crate) fn open_object<T: Copy, const M: u8>(
    state: &State<T, M>,
    pid: u32,
    fd: i32,
) -> Option<OpenObject>
    requires { IsSound state.now }
    ensures none { IfNone result ((next : ℕ → Opened (Unit {0}) → Replying) → or_badf (known image_layout pid (meaning state.now)) fd next ≡ refuse EBADF) }
    ensures some { IfSome result (λ o. IsOpenAs (known image_layout pid (meaning state.now)) fd o) }
{
    let Some(number) = natural(fd) else {
        return None;
    };
    match state.opened(pid, number) {
        Some(opened) => Some(OpenObject {
            number,
            host: host_of(opened.place),
            what: opened.what,
        }),
        None => None,
    }
}

/// A number that isn't negative, `None` exactly where it is.
pub(crate) fn natural(number: i32) -> Option<u32>
    ensures { result ≡ descriptor_number number }
{
    u32::try_from(number).ok()
}

/// The object at a place.
fn host_of<T: Copy>(place: Option<Place<T>>) -> Option<Host>
    ensures { result ≡ option_map (λ p. p.host) place }
{
    match place {
        Some(place) => Some(place.host),
        None => None,
    }
}

/// Whether a descriptor stands for the working directory, as AT_FDCWD does.
pub fn is_working_directory(fd: i32) -> bool
    ensures { result ≡ is_working_directory fd }
{
    fd == AT_FDCWD
}

/// The object that is a process's working directory.
pub fn working_directory<T: Copy, const M: u8>(state: &State<T, M>, pid: u32) -> Host
    requires { IsSoundFor pid state.now }
    ensures { result ≡ (known image_layout pid (meaning state.now)).caller.cwd }
{
    match state.index_of(pid) {
        Some(k) => state.living[k].cwd.host,
        None => unreachable!(),
    }
}

/// Whether what stands in the process directory is a directory.
pub(crate) fn is_process_directory(at: ProcAt) -> bool
    ensures { result ≡ is_process_directory at }
{
    matches!(at, ProcAt::Dir(_) | ProcAt::FdDir(_))
}
