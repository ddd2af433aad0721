//! Laws of states and changes, each carried by a function that does nothing.
ghost use Rattle.law_beside.specs.Changes.{BesideIsAnEquality, ChangesAreLaid, ChangesComeBeside, EditsStayBeside, EndsComeBeside, OthersKeepImages};

/// States that are equal but for what some compute on are so both ways, and from one to the next.
pub fn beside_is_an_equality<T>()
    ensures { BesideIsAnEquality T }
{}

/// Changes do on layouts what they do on registers and memories.
pub fn changes_are_laid<T>()
    ensures { ChangesAreLaid T }
{}

/// Where their caller computes on the same they leave such states.
pub fn changes_come_beside<T>()
    ensures { ChangesComeBeside T }
{}

/// Who lives computes on what it computed on, whatever another one does.
pub fn others_keep_images()
    ensures { OthersKeepImages }
{}

/// What is done between calls leaves such states.
pub fn ends_come_beside()
    ensures { EndsComeBeside }
{}

/// An edit in one of the two leaves all others on the same.
pub fn edits_stay_beside()
    ensures { EditsStayBeside }
{}
