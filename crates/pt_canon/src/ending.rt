//! Where a walk ends.

use crate::guest::Guest;
use pt_bind::below::pr_base::Last;

/// Where a walk ends: the guest text that it answers, what the path ends with, whether a slash stands behind that, and
/// whether what was asked for is there.
#[derive(Drop)]
pub(crate) struct Ending {
    pub(crate) guest: Guest,
    pub(crate) last: Last,
    pub(crate) slash: bool,
    pub(crate) exists: bool,
}

/// The same, and whether the walk there is steady: each host path at which it looked is.
#[derive(Drop)]
pub(crate) struct Ended {
    pub(crate) ending: Ending,
    pub(crate) steady: bool,
}
