//! Laws of the definitions, each carried by a function that does nothing.
ghost use Rattle.pt_bind.specs.Laws.{HostTextsGoBack, OwnersAreLongest, RowsAreRead};
ghost use Rattle.pt_bind.specs.Tags.{TagsChange};

/// The binding to which a text belongs is that with the longest location that the text begins with, component by
/// component, and the text's host text is that binding's source followed by the rest.
pub fn owners_are_longest()
    ensures { OwnersAreLongest }
{}

/// The guest text of a text's host text by the text's own index is the text itself.
pub fn host_texts_go_back()
    ensures { HostTextsGoBack }
{}

/// Settled bindings are read back from their bytes.
pub fn rows_are_read()
    ensures { RowsAreRead }
{}

/// A tag that is set, copied or taken away shows where it is said, and nowhere else.
pub fn tags_change()
    ensures { TagsChange }
{}
