//! Laws of listings, each carried by a function that does nothing.
ghost use Rattle.kr_text.specs.Same.{EscapesAreReadBack, ListingsAreReadBack};

/// What escapes write of a name or a text is read as it.
pub fn escapes_are_read_back()
    ensures { EscapesAreReadBack }
{}

/// Reading the canonical listing of a tree and a user gives that user and a tree in which each text
/// names the like (kind, mode, owner and bytes), and two texts name one file exactly where they did.
/// This holds of every tree and user that a listing can stand for: numbers, modes, texts of links and
/// paths are such as its lines can have, and the limits are kept also where a link counts once for each
/// of its names.
pub fn listings_are_read_back()
    ensures { ListingsAreReadBack }
{}
