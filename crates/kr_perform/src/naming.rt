//! Calls that open, make and remove what a path leads to. A path that isn't walked leads nowhere: ENOENT.
ghost use Rattle.std.specs.Prelude.{◌≢◌, ℕ, ℤ, List, IfSome};
ghost use Rattle.law_allowed.specs.kr_calls.declared.request.Request.TheVariants as call;
ghost use Rattle.law_allowed.specs.kr_tree.Lawful.{IsSound as IsSoundTree};
ghost use Rattle.law_allowed.specs.kr_view.View.{Row};
ghost use Rattle.law_allowed.specs.kr_model.declared.outcome.Outcome.TheVariants.{NoMemory as WantOfMemory};
ghost use Rattle.kr_rows.specs.kr_ops.Sound.{IsLawfulFor, IsServed, IsSound, IsSoundFor};
ghost use Rattle.kr_transfer.specs.kr_seen.Resolved.{IsEntryIn, IsFoundIn, IsFreeIn};
ghost use Rattle.kr_perform.specs.Operating.{HasNumbers, OperatesAt};

use kr_names::{linking, making, moving, opening, removing};
use kr_rows::answer::refused;
use kr_rows::below::{Bytes, Errno, NoMemory, State, Targets, lawful_states_are_sound};
use law_allowed::below::{Outcome, Places};
use std::alloc::Global;

/// mkdirat(2).
pub fn mkdirat<T: Copy, const M: u8>(
    state: &mut State<T, M>,
    pid: u32,
    targets: &Targets<T>,
    mode: u32,
) -> Outcome
    requires caller { IsSoundFor pid state.old }
    requires free { IfSome targets.now.first (λ t. IsFreeIn state.old.tree t) }
    requires numbers { HasNumbers state.old }
    ensures performs { (n : T → ℕ) (table : List Row) (dirfd : ℤ) (path : List ℕ) → OperatesAt n table pid (call.Mkdirat dirfd path mode) targets.now.first targets.now.second state.old state.new result }
    ensures served { result ≢ WantOfMemory → IsServed state.new }
{
    match &targets.first {
        Some(target) => making::mkdirat(state, pid, target, mode),
        None => refused(Errno::ENOENT),
    }
}

/// symlinkat(2), of a copy of the text.
pub fn symlinkat<T: Copy, const M: u8>(
    alloc: Global,
    state: &mut State<T, M>,
    pid: u32,
    targets: &Targets<T>,
    text: &[u8],
) -> Outcome
    requires sound { IsSound state.old }
    requires free { IfSome targets.now.first (λ t. IsFreeIn state.old.tree t) }
    requires numbers { HasNumbers state.old }
    ensures performs { (n : T → ℕ) (table : List Row) (dirfd : ℤ) (path : List ℕ) → OperatesAt n table pid (call.Symlinkat text.now dirfd path) targets.now.first targets.now.second state.old state.new result }
    ensures served { result ≢ WantOfMemory → IsServed state.new }
{
    let Some(target) = &targets.first else {
        return refused(Errno::ENOENT);
    };
    match Bytes::copy(alloc, text) {
        Ok(text) => making::symlinkat(state, pid, target, text),
        Err(NoMemory) => Outcome::NoMemory,
    }
}

/// unlinkat(2).
pub fn unlinkat<P: Places, const M: u8>(
    state: &mut State<P::Mount, M>,
    places: &P,
    pid: u32,
    targets: &Targets<P::Mount>,
    flags: u32,
) -> Outcome
    requires sound { IsSound state.old }
    requires entry { IfSome targets.now.first (λ t. IsEntryIn state.old.tree (P.mounts places.now) t) }
    ensures performs { (dirfd : ℤ) (path : List ℕ) → OperatesAt P.number (P.mounts places.now) pid (call.Unlinkat dirfd path flags) targets.now.first targets.now.second state.old state.new result }
    ensures served { result ≢ WantOfMemory → IsServed state.new }
{
    match &targets.first {
        Some(target) => removing::unlinkat(state, places, pid, target, flags),
        None => refused(Errno::ENOENT),
    }
}

/// openat(2).
pub fn openat<P: Places, const M: u8>(
    alloc: Global,
    state: &mut State<P::Mount, M>,
    places: &P,
    pid: u32,
    targets: &Targets<P::Mount>,
    flags: u32,
    mode: u32,
) -> Outcome
    requires caller { IsLawfulFor P.number (P.mounts places.now) pid state.old }
    requires found { IfSome targets.now.first (λ t. IsFoundIn state.old.tree t) }
    requires free { IfSome targets.now.first (λ t. IsFreeIn state.old.tree t) }
    requires numbers { HasNumbers state.old }
    ensures performs { (dirfd : ℤ) (path : List ℕ) → OperatesAt P.number (P.mounts places.now) pid (call.Openat dirfd path flags mode) targets.now.first targets.now.second state.old state.new result }
    ensures served { result ≢ WantOfMemory → IsServed state.new }
{
    lawful_states_are_sound::<P::Mount, M>();
    match &targets.first {
        Some(target) => opening::openat(alloc, state, places, pid, target, flags, mode),
        None => refused(Errno::ENOENT),
    }
}

/// linkat(2).
pub fn linkat<P: Places, const M: u8>(
    state: &mut State<P::Mount, M>,
    places: &P,
    pid: u32,
    targets: &Targets<P::Mount>,
) -> Outcome
    requires sound { IsSound state.old }
    requires found { IfSome targets.now.first (λ t. IsFoundIn state.old.tree t) }
    requires free { IfSome targets.now.second (λ t. IsFreeIn state.old.tree t) }
    requires numbers { HasNumbers state.old }
    ensures performs { (olddir newdir : ℤ) (old new : List ℕ) (flags : ℕ) → OperatesAt P.number (P.mounts places.now) pid (call.Linkat olddir old newdir new flags) targets.now.first targets.now.second state.old state.new result }
    ensures served { result ≢ WantOfMemory → IsServed state.new }
{
    let Some(old) = &targets.first else {
        return refused(Errno::ENOENT);
    };
    match &targets.second {
        Some(new) => linking::linkat(state, places, pid, old, new),
        None => refused(Errno::ENOENT),
    }
}

/// renameat2(2) without flags.
pub fn renameat2<P: Places, const M: u8>(
    state: &mut State<P::Mount, M>,
    places: &P,
    pid: u32,
    targets: &Targets<P::Mount>,
) -> Outcome
    requires sound { IsSound state.old }
    requires tree { IsSoundTree state.old.tree }
    requires entry { IfSome targets.now.first (λ t. IsEntryIn state.old.tree (P.mounts places.now) t) }
    requires free { IfSome targets.now.second (λ t. IsFreeIn state.old.tree t) }
    requires over { IfSome targets.now.second (λ t. IsEntryIn state.old.tree (P.mounts places.now) t) }
    requires numbers { HasNumbers state.old }
    ensures performs { (olddir newdir : ℤ) (old new : List ℕ) → OperatesAt P.number (P.mounts places.now) pid (call.Renameat2 olddir old newdir new) targets.now.first targets.now.second state.old state.new result }
    ensures served { result ≢ WantOfMemory → IsServed state.new }
{
    let Some(old) = &targets.first else {
        return refused(Errno::ENOENT);
    };
    match &targets.second {
        Some(new) => moving::renameat2(state, places, pid, old, new),
        None => refused(Errno::ENOENT),
    }
}
