//! What an answer tells of the tags of a process.

use pt_args::below::pt_bind::Slot;

/// What of a process's tags changes.
#[derive(Clone, Copy)]
pub(crate) enum Note {
    Nothing,
    /// What has this slot came through the binding of this index.
    Sets(Slot, u32),
    /// What has the second slot is what has the first.
    Copies(Slot, Slot),
}
