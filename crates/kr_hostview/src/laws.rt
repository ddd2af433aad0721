//! Laws of the host's own view over a state, each carried by a function that does nothing.
ghost use Rattle.kr_hostview.specs.Laws.{IsHostView, LawfulOnHost};

/// The process directory is that of a kernel with one mount over the same state.
pub fn hosts_have_one_mount<T>()
    ensures { IsHostView T }
{}

/// Over a lawful state of some view it keeps what every process directory keeps, and its links lead to places of the
/// host's own view.
pub fn lawful_on_host<T>()
    ensures { LawfulOnHost T }
{}
