//! The law of the option words, carried by a function that does nothing.
ghost use Rattle.pr_words.specs.ReadBack.{OptionsAreReadBack};

/// Plain settings, each spelled as its option in the long form with its value, and a command behind them
/// are read as what these settings ask for. Plain settings are such as may be given together; their texts
/// have no zero byte, and their numbers lie within the ranges.
pub fn options_are_read_back()
    ensures { OptionsAreReadBack }
{}
