//! What is due at the second stop of a call.

use pt_ident::Change;

/// What is still to be done for a process, once its call was carried out.
#[derive(Clone, Copy)]
pub enum Due {
    /// The number of its call is given back, and the answer is told.
    Tells { number: u64, answer: i64 },
    /// fchown(2), fchownat(2), fchmod(2) and fchmodat(2): an error of permission becomes 0, and behind a 0 it is remembered what was said of the
    /// file to which the call led.
    Remembers { change: Change },
    /// chroot(2): the same where its path leads to the root.
    ForgivesRoot,
    /// fstat(2) and newfstatat(2): the owner in the structure at an address is shown as another.
    ShowsOwner { at: u64 },
    /// execve(2): the effective numbers are saved, and stand in the auxiliary vector.
    BeginsProgram,
}
