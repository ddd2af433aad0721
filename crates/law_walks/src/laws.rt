//! The laws on looks and walks, each carried by a function that does nothing.
ghost use Rattle.law_walks.specs.Laws.{LooksAgree, WalksAgree};

/// From a place and the guest text at which it stands one component shows the same.
pub fn looks_agree()
    ensures { LooksAgree }
{}

/// A walk along places and a walk along guest texts that begin at a place and a guest text at which it stands come to
/// the same, along any path and in every mode.
pub fn walks_agree()
    ensures { WalksAgree }
{}
