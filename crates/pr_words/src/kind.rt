//! The kinds of options.

/// What an option sets, under whichever of its names.
#[derive(Clone, Copy)]
pub(crate) enum Kind {
    /// The guest's root directory.
    Root,
    Bind,
    /// The first working directory.
    Directory,
    /// The identity of user and group 0.
    RootId,
    /// The identity of any user and group.
    ChangeId,
    /// A variable of the environment.
    Variable,
    Turns,
    Schedule,
    /// The slots of single steps.
    Loose,
    /// The mounted kernel.
    Native,
    /// The last line, which tells whether the run was calm.
    Calm,
    /// A generated case.
    Case,
}
