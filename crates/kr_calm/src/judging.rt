//! What changes of names and modes break.
ghost use Rattle.std.specs.Prelude.{◌≡◌, ℕ};
ghost use Rattle.kr_seen.specs.kr_model.Change.{MoveName, RemoveName};
ghost use Rattle.kr_seen.specs.kr_ops.Meaning.{meaning};
ghost use Rattle.kr_seen.specs.kr_ops.Sound.{IsServed};
ghost use Rattle.kr_seen.specs.Numbered.{state_numbered};
ghost use Rattle.kr_calm.specs.Foreseen.{guarded};
ghost use Rattle.kr_calm.specs.InUse.{is_directory_of, is_in_use};
ghost use Rattle.kr_calm.specs.Questions.{HaveFewPoints};
ghost use Rattle.kr_calm.specs.Rules.{breaks_3, is_above_rows, is_above_use, names_source, of_entry, serves, takes_in_use};

use crate::rows::{RowQuestion, any_row};
use crate::uses::{UseQuestion, any_use};
use kr_seen::below::{Ino, Places, Right, State};

/// Whether an entry is there that is in use, or stands above what is.
fn is_entry_used<T: Copy, const M: u8>(state: &State<T, M>, dir: Ino, name: &[u8]) -> bool
    requires { IsServed state.now }
    ensures { result ≡ of_entry state.now.tree dir name.now (is_above_use (meaning state.now)) }
{
    match state.tree.entry(dir, name) {
        Some(ino) => any_use(state, UseQuestion::Above(ino)),
        None => false,
    }
}

/// Whether an entry is there that stands above a source or a mount point.
fn is_entry_above<P: Places, const M: u8>(
    places: &P,
    state: &State<P::Mount, M>,
    dir: Ino,
    name: &[u8],
) -> bool
    requires { HaveFewPoints (P.mounts places.now) }
    ensures { result ≡ of_entry state.now.tree dir name.now (is_above_rows (P.mounts places.now) state.now.tree) }
{
    match state.tree.entry(dir, name) {
        Some(ino) => any_row(places, &state.tree, RowQuestion::Above(ino)),
        None => false,
    }
}

/// Whether a source was found at an entry.
fn names_source<P: Places, const M: u8>(
    places: &P,
    state: &State<P::Mount, M>,
    dir: Ino,
    name: &[u8],
) -> bool
    requires { HaveFewPoints (P.mounts places.now) }
    ensures { result ≡ names_source (P.mounts places.now) dir name.now }
{
    any_row(places, &state.tree, RowQuestion::Named(dir, name))
}

/// Whether a removal takes a source away (rule 3).
pub(crate) fn removal_takes_source<P: Places, const M: u8>(
    places: &P,
    state: &State<P::Mount, M>,
    dir: Ino,
    name: &[u8],
) -> bool
    requires { HaveFewPoints (P.mounts places.now) }
    ensures { result ≡ breaks_3 (P.mounts places.now) state.now.tree (RemoveName dir name.now) }
{
    names_source(places, state, dir, name)
}

/// Whether a rename takes a source away, or moves what stands above a source or a mount point (rule 3).
pub(crate) fn rename_takes_source<P: Places, const M: u8>(
    places: &P,
    state: &State<P::Mount, M>,
    dir: Ino,
    name: &[u8],
    to: Ino,
    new: &[u8],
) -> bool
    requires { HaveFewPoints (P.mounts places.now) }
    ensures { result ≡ breaks_3 (P.mounts places.now) state.now.tree (MoveName dir name.now to new.now) }
{
    names_source(places, state, dir, name)
        || names_source(places, state, to, new)
        || is_entry_above(places, state, dir, name)
}

/// Whether a removal takes a directory in use away (rule 4).
pub(crate) fn removal_takes_used<T: Copy, const M: u8>(
    state: &State<T, M>,
    dir: Ino,
    name: &[u8],
) -> bool
    requires { IsServed state.now }
    ensures { result ≡ takes_in_use (meaning state.now) (RemoveName dir name.now) }
{
    is_entry_used(state, dir, name)
}

/// Whether a rename moves a directory in use or one above it, or takes one away (rule 4).
pub(crate) fn rename_takes_used<T: Copy, const M: u8>(
    state: &State<T, M>,
    dir: Ino,
    name: &[u8],
    to: Ino,
    new: &[u8],
) -> bool
    requires { IsServed state.now }
    ensures { result ≡ takes_in_use (meaning state.now) (MoveName dir name.now to new.now) }
{
    is_entry_used(state, dir, name) || is_entry_used(state, to, new)
}

/// Whether a directory is used of a process that ended, in the state that is left (rule 4).
pub fn end_takes_used<T: Copy, const M: u8>(state: &State<T, M>, pid: u32) -> bool
    requires { IsServed state.now }
    ensures own { result ≡ is_in_use (is_directory_of pid) (meaning state.now) }
    ensures numbered { (number : T → ℕ) → result ≡ is_in_use (is_directory_of pid) (state_numbered number (meaning state.now)) }
{
    any_use(state, UseQuestion::Of(pid))
}

/// Whether a directory has to go on giving search.
fn serves<P: Places, const M: u8>(places: &P, state: &State<P::Mount, M>, ino: Ino) -> bool
    requires mounts { HaveFewPoints (P.mounts places.now) }
    requires served { IsServed state.now }
    ensures { result ≡ serves (P.mounts places.now) (meaning state.now) ino }
{
    state.tree.is_directory(ino)
        && (any_row(places, &state.tree, RowQuestion::Serves(ino))
            || any_use(state, UseQuestion::Above(ino))
            || any_use(state, UseQuestion::Remembered(ino)))
}

/// The inode, where it gives search that a calm call leaves to it (rule 5): judged before the call.
pub(crate) fn guarded<P: Places, const M: u8>(
    places: &P,
    state: &State<P::Mount, M>,
    ino: Ino,
) -> Option<Ino>
    requires mounts { HaveFewPoints (P.mounts places.now) }
    requires served { IsServed state.now }
    ensures { result ≡ guarded (P.mounts places.now) (meaning state.now) ino }
{
    if state.tree.may(state.user, ino, Right::Search) && serves(places, state, ino) {
        Some(ino)
    } else {
        None
    }
}
