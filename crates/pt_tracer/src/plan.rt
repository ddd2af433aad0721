//! What becomes of a call at its first stop.

use pt_results::below::Edit;

/// Where the first path of a call leads in the guest.
#[derive(Clone, Copy)]
pub struct Led {
    /// The index of the binding to which its guest text belongs.
    pub index: u32,
    /// That text is the root.
    pub at_root: bool,
}

/// A path leads nowhere, or there is none.
pub(crate) const NOWHERE: Led = Led {
    index: 0,
    at_root: false,
};

/// What the plain kernel is shown of a call, and where its first path leads.
#[derive(Drop)]
pub struct Plan {
    pub edit: Edit,
    pub led: Led,
}
