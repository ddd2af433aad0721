//! Calls that ask or set what a path leads to. A path that isn't walked leads nowhere: ENOENT.
ghost use Rattle.std.specs.Prelude.{◌≢◌, ◌∷◌, ℕ, ℤ, List, IfSome};
ghost use Rattle.law_allowed.specs.kr_calls.declared.request.Request.TheVariants as call;
ghost use Rattle.law_allowed.specs.kr_view.View.{Row};
ghost use Rattle.law_allowed.specs.kr_model.declared.outcome.Outcome.TheVariants.{NoMemory as WantOfMemory};
ghost use Rattle.kr_rows.specs.kr_ops.Sound.{IsLawfulFor, IsServed, IsSound, IsSoundFor};
ghost use Rattle.kr_transfer.specs.kr_seen.Resolved.{IsFoundIn};
ghost use Rattle.kr_perform.specs.Operating.{OperatesAt};

use kr_attributes::{directories, links, modes, owners, rights, stats};
use kr_rows::answer::refused;
use kr_rows::below::{Errno, State, Targets, lawful_states_are_sound};
use law_allowed::below::{Outcome, Places};

/// chdir(2).
pub fn chdir<T: Copy, const M: u8>(
    state: &mut State<T, M>,
    pid: u32,
    targets: &Targets<T>,
) -> Outcome
    requires caller { IsSoundFor pid state.old }
    requires found { IfSome targets.now.first (λ t. IsFoundIn state.old.tree t) }
    ensures performs { (n : T → ℕ) (table : List Row) (path : List ℕ) → OperatesAt n table pid (call.Chdir path) targets.now.first targets.now.second state.old state.new result }
    ensures served { result ≢ WantOfMemory → IsServed state.new }
{
    match &targets.first {
        Some(target) => directories::chdir(state, pid, target),
        None => refused(Errno::ENOENT),
    }
}

/// chroot(2).
pub fn chroot<T: Copy, const M: u8>(
    state: &mut State<T, M>,
    pid: u32,
    targets: &Targets<T>,
) -> Outcome
    requires sound { IsSound state.old }
    ensures performs { (n : T → ℕ) (table : List Row) (path : List ℕ) → OperatesAt n table pid (call.Chroot path) targets.now.first targets.now.second state.old state.new result }
    ensures served { result ≢ WantOfMemory → IsServed state.new }
{
    match &targets.first {
        Some(target) => directories::chroot(state, target),
        None => refused(Errno::ENOENT),
    }
}

/// faccessat(2).
pub fn faccessat<T: Copy, const M: u8>(
    state: &mut State<T, M>,
    pid: u32,
    targets: &Targets<T>,
    mode: u32,
) -> Outcome
    requires sound { IsSound state.old }
    ensures performs { (n : T → ℕ) (table : List Row) (dirfd : ℤ) (path : List ℕ) → OperatesAt n table pid (call.Faccessat dirfd path mode) targets.now.first targets.now.second state.old state.new result }
    ensures served { result ≢ WantOfMemory → IsServed state.new }
{
    match &targets.first {
        Some(target) => rights::faccessat(state, target, mode),
        None => refused(Errno::ENOENT),
    }
}

/// fchmodat(2).
pub fn fchmodat<T: Copy, const M: u8>(
    state: &mut State<T, M>,
    pid: u32,
    targets: &Targets<T>,
    mode: u32,
) -> Outcome
    requires sound { IsSound state.old }
    ensures performs { (n : T → ℕ) (table : List Row) (dirfd : ℤ) (path : List ℕ) → OperatesAt n table pid (call.Fchmodat dirfd path mode) targets.now.first targets.now.second state.old state.new result }
    ensures served { result ≢ WantOfMemory → IsServed state.new }
{
    match &targets.first {
        Some(target) => modes::fchmodat(state, target, mode),
        None => refused(Errno::ENOENT),
    }
}

/// fchownat(2) of a path that isn't empty.
pub fn fchownat_of_path<T: Copy, const M: u8>(
    state: &mut State<T, M>,
    pid: u32,
    targets: &Targets<T>,
    uid: u32,
    gid: u32,
) -> Outcome
    requires sound { IsSound state.old }
    ensures performs { (n : T → ℕ) (table : List Row) (dirfd : ℤ) (b : ℕ) (path : List ℕ) (flags : ℕ) → OperatesAt n table pid (call.Fchownat dirfd (b ∷ path) uid gid flags) targets.now.first targets.now.second state.old state.new result }
    ensures served { result ≢ WantOfMemory → IsServed state.new }
{
    match &targets.first {
        Some(target) => owners::fchownat(state, target, uid, gid),
        None => refused(Errno::ENOENT),
    }
}

/// newfstatat(2) of a path that isn't empty.
pub fn newfstatat_of_path<T: Copy, const M: u8>(
    state: &mut State<T, M>,
    pid: u32,
    targets: &Targets<T>,
    buf: u64,
) -> Outcome
    requires { IsSoundFor pid state.old }
    ensures performs { (n : T → ℕ) (table : List Row) (dirfd : ℤ) (b : ℕ) (path : List ℕ) (flags : ℕ) → OperatesAt n table pid (call.Newfstatat dirfd (b ∷ path) buf flags) targets.now.first targets.now.second state.old state.new result }
    ensures served { result ≢ WantOfMemory → IsServed state.new }
{
    match &targets.first {
        Some(target) => stats::newfstatat(state, pid, target, buf),
        None => refused(Errno::ENOENT),
    }
}

/// readlinkat(2).
pub fn readlinkat<P: Places, const M: u8>(
    places: &P,
    state: &mut State<P::Mount, M>,
    pid: u32,
    targets: &Targets<P::Mount>,
    buf: u64,
    size: i32,
) -> Outcome
    requires { IsLawfulFor P.number (P.mounts places.now) pid state.old }
    ensures performs { (dirfd : ℤ) (path : List ℕ) → OperatesAt P.number (P.mounts places.now) pid (call.Readlinkat dirfd path buf size) targets.now.first targets.now.second state.old state.new result }
    ensures served { result ≢ WantOfMemory → IsServed state.new }
{
    lawful_states_are_sound::<P::Mount, M>();
    match &targets.first {
        Some(target) => links::readlinkat(places, state, pid, target, buf, size),
        None => refused(Errno::ENOENT),
    }
}

/// fchownat(2): of an empty path what is open under the descriptor, or the working directory.
pub fn fchownat<T: Copy, const M: u8>(
    state: &mut State<T, M>,
    pid: u32,
    targets: &Targets<T>,
    dirfd: i32,
    path: &[u8],
    uid: u32,
    gid: u32,
) -> Outcome
    requires { IsSoundFor pid state.old }
    ensures performs { (n : T → ℕ) (table : List Row) (flags : ℕ) → OperatesAt n table pid (call.Fchownat dirfd path.now uid gid flags) targets.now.first targets.now.second state.old state.new result }
    ensures served { result ≢ WantOfMemory → IsServed state.new }
{
    if path.is_empty() {
        owners::fchownat_here(state, pid, dirfd, uid, gid)
    } else {
        fchownat_of_path(state, pid, targets, uid, gid)
    }
}

/// newfstatat(2): of an empty path what is open under the descriptor, or the working directory.
pub fn newfstatat<T: Copy, const M: u8>(
    state: &mut State<T, M>,
    pid: u32,
    targets: &Targets<T>,
    dirfd: i32,
    path: &[u8],
    buf: u64,
) -> Outcome
    requires { IsSoundFor pid state.old }
    ensures performs { (n : T → ℕ) (table : List Row) (flags : ℕ) → OperatesAt n table pid (call.Newfstatat dirfd path.now buf flags) targets.now.first targets.now.second state.old state.new result }
    ensures served { result ≢ WantOfMemory → IsServed state.new }
{
    if path.is_empty() {
        stats::newfstatat_here(state, pid, dirfd, buf)
    } else {
        newfstatat_of_path(state, pid, targets, buf)
    }
}
