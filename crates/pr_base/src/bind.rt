//! Bindings of host objects to guest locations.

use crate::bytes::Bytes;

/// A binding as it is asked for, by the options `-b` and `-r`.
#[derive(Drop)]
pub struct Bind {
    /// Which of the bindings it is, counted from 1. The root's has 0.
    pub index: u32,
    /// The path of the host object that the guest sees.
    pub host: Bytes,
    /// The guest path where the guest sees it.
    pub guest: Bytes,
    /// A last link of the guest path is the place itself; it isn't followed.
    pub keep: bool,
}

/// A binding as it was settled: all are texts of names from the root.
#[derive(Drop)]
pub struct Bound {
    /// Which of the bindings it is. The root's has 0.
    pub index: u32,
    /// The guest text where it is located.
    pub location: Bytes,
    /// The host text of what the guest sees there.
    pub source: Bytes,
    /// The host text of the mount point. It is empty for the root, which has none.
    pub point: Bytes,
}
