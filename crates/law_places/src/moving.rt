//! Laws of a name that is moved, each carried by a function that does nothing.
ghost use Rattle.law_places.specs.Moving.{MovesKeepPlaces, MovesLeaveMost};

/// A move that spares sources, mount points and directories in use leaves the table, all directories in use, and what is
/// remembered elsewhere.
pub fn moves_leave_most()
    ensures { MovesLeaveMost }
{}

/// All places stand after a move that spares sources, mount points and directories in use, and is made between directories
/// that lie below the same sources and mount points.
pub fn moves_keep_places()
    ensures { MovesKeepPlaces }
{}
