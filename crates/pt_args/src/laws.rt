//! Laws of the definitions, each carried by a function that does nothing.
ghost use Rattle.pt_args.specs.Laws.{EditsKeepToPaths, ShelvesHoldTheirItems, TextsAreReadBack};

/// Items on a shelf stand one below the other and don't overlap, each at the highest address divisible by 8 that leaves it
/// below the one before it, and above the shelf's bottom where there is room for them.
pub fn shelves_hold_their_items()
    ensures { ShelvesHoldTheirItems }
{}

/// What is read at the address of a text on a shelf, as the text of a path is read, is that text.
pub fn texts_are_read_back()
    ensures { TextsAreReadBack }
{}

/// A call without a path is passed. An edit changes no register but those of its call's paths, and writes nothing but in
/// the 65,536 bytes below the stack pointer, where these can be used.
pub fn edits_keep_to_paths()
    ensures { EditsKeepToPaths }
{}
