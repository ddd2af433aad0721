//! Laws of the turns of states that match, each carried by a function that does nothing.
ghost use Rattle.law_turns.specs.Quiet.{QuietTurnsKeepMatches};
ghost use Rattle.law_turns.specs.Turning.{DecodingsKeepMatches, InstructionsKeepMatches, MatchesGoOnAlike, ShelvesKeepMatches};

/// In states that match the same process runs at each pick, and where none can run the end is the same.
pub fn matches_go_on_alike<S, T>()
    ensures { MatchesGoOnAlike S T }
{}

/// Instructions of the process of a number end alike in states that match, and leave states that match, where no marked byte is read.
pub fn instructions_keep_matches()
    ensures { InstructionsKeepMatches }
{}

/// The call at which it stands is decoded alike, which leaves states that match, where no marked byte is read.
pub fn decodings_keep_matches()
    ensures { DecodingsKeepMatches }
{}

/// So does a shelf that the kernel with mounts marks.
pub fn shelves_keep_matches()
    ensures { ShelvesKeepMatches }
{}

/// And so does a turn in which no call is made.
pub fn quiet_turns_keep_matches<S, T>()
    ensures { QuietTurnsKeepMatches S T }
{}
