//! Laws of trees, each carried by a function that does nothing.
ghost use Rattle.kr_tree.specs.Lawful.{IsKept, HasItsInodes};
ghost use Rattle.kr_tree.specs.Names.{NamedHaveHostNames, StandingHaveHostNames, HostNamesLead};

use crate::tree::Tree;

/// What every tree keeps, and that each entry's inode is there.
pub fn trees_are_kept(tree: &Tree)
    ensures kept { IsKept tree.now }
    ensures there { HasItsInodes tree.now }
{
    tree.is_kept();
}

/// Each directory that a text of names leads to has that host name and no other, each that wasn't
/// removed has one, and a host name leads to its directory.
pub fn directories_have_host_names(tree: &Tree)
    ensures named { NamedHaveHostNames tree.now }
    ensures standing { StandingHaveHostNames tree.now }
    ensures lead { HostNamesLead tree.now }
{
    tree.has_host_names();
}
