//! The law of links of the process directory, carried by a function that does nothing.
ghost use Rattle.law_plans.specs.Links.{LinksAreAnsweredAlike};

/// A tracer answers readlinkat(2) of a link of the process directory as the kernel with mounts does, where it answers that itself.
pub fn links_are_answered_alike()
    ensures { LinksAreAnsweredAlike }
{}
