//! Laws of what both watchers edit at the second stop, each carried by a function that does nothing.
ghost use Rattle.law_stops.specs.Editing.{BeginningsKeepMatches, EditsKeepMatches};
ghost use Rattle.law_stops.specs.Reading.{EditsReadUnmarked};

/// What is edited of an answer leaves states that match as such, and both watchers remember the same of the call's target, where it reads no
/// marked byte and leads to the same inode for both.
pub fn edits_keep_matches()
    ensures { EditsKeepMatches }
{}

/// And so does what tells a new program who it is.
pub fn beginnings_keep_matches()
    ensures { BeginningsKeepMatches }
{}

/// None of the bytes is marked that are edited behind a stat(2), which wrote them.
pub fn edits_read_unmarked()
    ensures { EditsReadUnmarked }
{}
