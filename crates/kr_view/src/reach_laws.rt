//! Laws of what host texts reach and of walks along them, each carried by a function that does nothing.
ghost use Rattle.kr_view.specs.ReachLaws.{DirectoriesAreSearched, EntriesAreFound, ReachesAreSound, ReachesGoByNames, TextsAreFound, WalksGoOnBehindTexts};

/// What is reached over hosts is, where it is an inode, what is reached over inodes, and else stands in a
/// process directory that is reached.
pub fn reaches_go_by_names()
    ensures { ReachesGoByNames }
{}

/// What is reached in a tree that is kept is there, by a text of well-formed names, of which a directory has one.
pub fn reaches_are_sound()
    ensures { ReachesAreSound }
{}

/// Over the host's own view the walk along a text that is reached, and more, goes on from what the text reaches.
pub fn walks_go_on_behind_texts()
    ensures { WalksGoOnBehindTexts }
{}

/// Over the host's own view the walk along the text of a directory that is reached, and a name, ends as what
/// stands there says.
pub fn entries_are_found()
    ensures { EntriesAreFound }
{}

/// Over the host's own view the walk along a text that is reached arrives there, in each mode, with a slash
/// behind it or without.
pub fn texts_are_found()
    ensures { TextsAreFound }
{}

/// Over the host's own view the walk along a text that is reached, and `.`, tells whether a directory is there that
/// may be searched.
pub fn directories_are_searched()
    ensures { DirectoriesAreSearched }
{}
