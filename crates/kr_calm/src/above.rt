//! What stands above what.
ghost use Rattle.std.specs.Prelude.{◌≡◌};
ghost use Rattle.kr_calm.specs.Above.{is_at_or_below};

use kr_seen::below::{Ino, Tree, trees_are_kept};

/// Whether a directory is another or stands below it, by their host names.
pub(crate) fn is_at_or_below(tree: &Tree, top: Ino, dir: Ino) -> bool
    ensures { result ≡ is_at_or_below tree.now top dir }
{
    trees_are_kept(tree);
    tree.is_below(top, dir)
}
