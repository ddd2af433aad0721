//! Laws of the definitions, each carried by a function that does nothing.
ghost use Rattle.pt_results.specs.Laws.{LinksLeadByTags, NotesChangeOneSlot};

/// A note sets the tag of one slot of one process, or copies it from another slot, or changes nothing.
pub fn notes_change_one_slot()
    ensures { NotesChangeOneSlot }
{}

/// A link of the process directory without a text of its own leads, from its directory, to the guest text of its object by the
/// object's tag, and to nothing where there is none.
pub fn links_lead_by_tags()
    ensures { LinksLeadByTags }
{}
