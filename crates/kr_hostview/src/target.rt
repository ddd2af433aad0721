//! What the links of the process directory lead to in the host's own view.
ghost use Rattle.std.specs.Prelude.{◌≡◌};
ghost use Rattle.kr_seen.specs.kr_view.View.{plain};
ghost use Rattle.kr_seen.specs.kr_ops.Meaning.{meaning};
ghost use Rattle.kr_seen.specs.kr_ops.Sound.{IsOfView, IsSound};
ghost use Rattle.kr_seen.specs.Carried.{CarriesMounts};
ghost use Rattle.kr_seen.specs.Standing.{IsStanding};
ghost use Rattle.kr_seen.specs.Targets.{target_told};
ghost use Rattle.kr_hostview.specs.OnHost.{host_target, number, target_on_host};

use kr_seen::below::{HostMount, Place, Places, Plain, ProcAt, State, lawful_states_are_sound};
use kr_seen::target::{Target, cwd_of, exe_of, open_at, root_of};

/// What a target leads to, with each place in the host's one mount.
fn on_host<T: Copy>(target: Target<'_, T>) -> Target<'_, HostMount>
    ensures { target_told result ≡ target_on_host (target_told target.entry) }
{
    match target {
        Target::Nothing => Target::Nothing,
        Target::Unplaced(what) => Target::Unplaced(what),
        Target::At(place, dir, name) => {
            let place = Place {
                mount: HostMount,
                host: place.host,
            };
            Target::At(place, dir, name)
        }
    }
}

/// What a link leads to.
fn target<T: Copy, const M: u8>(state: &State<T, M>, at: ProcAt) -> Target<'_, HostMount>
    requires { IsSound state.now }
    ensures { target_told result ≡ host_target (meaning state.now) at }
{
    match at {
        ProcAt::SelfLink | ProcAt::Dir(_) | ProcAt::FdDir(_) => Target::Nothing,
        ProcAt::Cwd(pid) => on_host(cwd_of(state, pid)),
        ProcAt::Root(pid) => root_of(state, pid, Plain::new().root()),
        ProcAt::Exe(pid) => on_host(exe_of(state, pid)),
        ProcAt::Fd(pid, fd) => on_host(open_at(state, pid, fd)),
    }
}

/// In the tree of a lawful state of some view the host's one mount stands.
pub(crate) fn carries_one_mount<T: Copy, const M: u8>(state: &State<T, M>)
    requires { IsOfView state.now }
    ensures { CarriesMounts plain state.now }
{
    lawful_states_are_sound::<T, M>();
}

/// What a link leads to, which stands in the tree where it is a place.
pub(crate) fn standing_target<T: Copy, const M: u8>(
    state: &State<T, M>,
    at: ProcAt,
) -> Target<'_, HostMount>
    requires { IsOfView state.now }
    ensures told { target_told result ≡ host_target (meaning state.now) at }
    ensures stands { IsStanding number state.now.tree plain (target_told result) }
{
    carries_one_mount(state);
    target(state, at)
}
