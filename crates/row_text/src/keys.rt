//! The keys of rows.

/// What a line of a row says.
#[derive(Clone, Copy, PartialEq)]
pub(crate) enum Key {
    Words,
    Options,
    Listing,
    Added,
    Tree,
    First,
    Guest,
    Last,
    Program,
    Put,
    Cut,
    Input,
    Only,
    Out,
    Traced,
    Errors,
    Calm,
    Answer,
    Left,
    Has,
    Lacks,
}

impl Key {
    /// The key that is written so.
    pub(crate) fn of(word: &str) -> Option<Key> {
        match word {
            "words" => Some(Key::Words),
            "options" => Some(Key::Options),
            "listing" => Some(Key::Listing),
            "line" => Some(Key::Added),
            "tree" => Some(Key::Tree),
            "first" => Some(Key::First),
            "guest" => Some(Key::Guest),
            "last" => Some(Key::Last),
            "program" => Some(Key::Program),
            "put" => Some(Key::Put),
            "cut" => Some(Key::Cut),
            "input" => Some(Key::Input),
            "only" => Some(Key::Only),
            "out" => Some(Key::Out),
            "traced" => Some(Key::Traced),
            "err" => Some(Key::Errors),
            "calm" => Some(Key::Calm),
            "answer" => Some(Key::Answer),
            "left" => Some(Key::Left),
            "has" => Some(Key::Has),
            "lacks" => Some(Key::Lacks),
            _ => None,
        }
    }

    /// Whether a block may have several lines with this key.
    pub(crate) fn is_repeated(self) -> bool {
        match self {
            Key::Options | Key::Added | Key::Put | Key::Out => true,
            Key::First | Key::Guest | Key::Last => true,
            Key::Has | Key::Lacks => true,
            _ => false,
        }
    }
}
