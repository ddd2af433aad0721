//! Laws of starts in guest terms, each carried by a function that does nothing.
ghost use Rattle.pt_first.specs.Laws.{FirstsCanStart};

/// The plain kernel can begin with the first process of a launch over settled bindings: the path of its program is a text, and that of its
/// working directory leads to a directory.
pub fn firsts_can_start()
    ensures { FirstsCanStart }
{}
