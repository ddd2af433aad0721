//! faccessat(2): what the user may do.
ghost use Rattle.std.specs.Prelude.{◌≡◌, ◌&&◌, ◌||◌, not, ℕ, List};
ghost use Rattle.kr_seen.specs.kr_view.View.{Row};
ghost use Rattle.kr_seen.specs.kr_calls.Arguments.{has};
ghost use Rattle.kr_seen.specs.kr_model.AttributeRows.{faccessat_row, gives, host_allows, process_allows};
ghost use Rattle.kr_seen.specs.kr_model.Known.{known};
ghost use Rattle.kr_seen.specs.kr_model.Operation.{looked_up};
ghost use Rattle.kr_seen.specs.kr_model.Seen.{LooksUp};
ghost use Rattle.kr_seen.specs.kr_model.State.{image_layout};
ghost use Rattle.kr_seen.specs.kr_ops.Meaning.{meaning};
ghost use Rattle.kr_seen.specs.kr_ops.Sound.{IsSound};
ghost use Rattle.kr_seen.specs.Performing.{PerformsAt, seen_found};

use crate::found::is_process_directory;
use kr_seen::below::{Errno, Host, Outcome, ProcAt, Right, State, Target};
use kr_seen::{number, refused};

/// R_OK of faccessat(2).
const READ: u32 = 4;

/// W_OK of faccessat(2).
const WRITE: u32 = 2;

/// X_OK of faccessat(2).
const SEARCH: u32 = 1;

/// faccessat(2): EACCES where a right is missing.
pub fn faccessat<T: Copy, const M: u8>(
    state: &State<T, M>,
    target: &Target<T>,
    mode: u32,
) -> Outcome
    requires { IsSound state.now }
    ensures { (n : T → ℕ) (table : List Row) (pid : ℕ) → PerformsAt target.now pid (λ k. looked_up (seen_found n table pid state.now target.now LooksUp) (λ l. faccessat_row k l mode)) state.now state.now result }
{
    let Some(place) = target.found else {
        return refused(Errno::ENOENT);
    };
    if gives(state, place.host, mode) {
        number(0)
    } else {
        refused(Errno::EACCES)
    }
}

/// Whether the user has the rights that are asked for.
fn gives<T: Copy, const M: u8>(state: &State<T, M>, host: Host, mode: u32) -> bool
    ensures { (pid : ℕ) → result ≡ gives (known image_layout pid (meaning state.now)) host mode }
{
    let reads = gives_right(state, host, has(mode, READ), Right::Read);
    let writes = gives_right(state, host, has(mode, WRITE), Right::Write);
    let searches = gives_right(state, host, has(mode, SEARCH), Right::Search);
    both(both(reads, writes), searches)
}

/// Whether both hold.
fn both(first: bool, second: bool) -> bool
    ensures { result ≡ (first && second) }
{
    first && second
}

/// Whether the user has a right, if it is asked for.
fn gives_right<T: Copy, const M: u8>(
    state: &State<T, M>,
    host: Host,
    asked: bool,
    right: Right,
) -> bool
    ensures { (pid : ℕ) → result ≡ (not asked || host_allows (known image_layout pid (meaning state.now)) host right) }
{
    if asked {
        allows(state, host, right)
    } else {
        true
    }
}

/// Whether the user has a right to an object.
fn allows<T: Copy, const M: u8>(state: &State<T, M>, host: Host, right: Right) -> bool
    ensures { (pid : ℕ) → result ≡ host_allows (known image_layout pid (meaning state.now)) host right }
{
    match host {
        Host::Node(ino) => state.tree.may(state.user, ino, right),
        Host::Proc(_, at) => process_allows(at, right),
    }
}

/// Whether the user has a right to what is in the process directory: its directories have the mode 0555, and its links 0777.
fn process_allows(at: ProcAt, right: Right) -> bool
    ensures { result ≡ process_allows at right }
{
    match right {
        Right::Read | Right::Search => true,
        Right::Write => !is_process_directory(at),
    }
}

/// Whether flags have all of these bits.
fn has(flags: u32, bits: u32) -> bool
    ensures { result ≡ has flags bits }
{
    flags & bits == bits
}
