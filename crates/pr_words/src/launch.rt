//! What is started.

use pr_base::{Bytes, Texts};

/// What is started, in guest terms.
#[derive(Drop)]
pub struct Launch {
    /// The command and its arguments. Without any it is `/bin/sh`.
    pub command: Texts,
    pub env: Texts,
    /// The path of the first working directory; what isn't a directory that the user may search becomes the root.
    pub cwd: Bytes,
    /// The user and the group as which the program is told that it runs.
    pub ids: (u32, u32),
}
