//! What of a process has a tag.

/// What of a process has a tag.
#[derive(Clone, Copy)]
pub enum Slot {
    /// Its working directory.
    Cwd,
    /// Its executable.
    Exe,
    /// What a descriptor is open for.
    Fd(u32),
}
