//! Bytes of which contracts alone know.
ghost use Rattle.std.specs.Prelude.{◌≡◌, ℕ, List, [], ◌++◌};
ghost use Rattle.std.specs.Borrow.{ftrue};

use std::marker::Model;

/// All bytes that passed. It holds none of them when it runs, so no check can compare its list with what a call moved: that it has those is
/// the matter of whoever calls `longer`, and to be read there.
#[derive(Drop)]
pub(crate) struct History {
    pub ghost bytes: { List ℕ },
}

impl Model for History {
    ghost also_owns = { λ _. ftrue };
}

impl History {
    /// Nothing passed yet.
    pub(crate) fn new() -> History
        ensures { result.bytes ≡ [] }
    {
        History {}
    }

    /// These bytes passed behind the others.
    pub(crate) fn longer(&mut self, _more: &[u8])
        ensures { self.new.bytes ≡ self.old.bytes ++ _more.now }
    {}
}
