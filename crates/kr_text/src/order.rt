//! The names of one directory in their order, and the names that are still to be written.
ghost use Rattle.std.specs.Prelude.{◌≡◌, ◌∷◌, ◌++◌, [], get_or, map as map_list, IfOk, OnOk, MatchOption};
ghost use Rattle.std.specs.List.{All};
ghost use Rattle.kr_tree.specs.Tree.{entries};
ghost use Rattle.kr_text.specs.Canonical.{put_in_order, below, children, root_name};
ghost use Rattle.kr_text.specs.Order.{AreNamed, HasHead, head, pairs_of, pairs_in};

use crate::names::{FullPath, Named};
use kr_tree::below::pr_base::NoMemory;
use kr_tree::laws::trees_are_kept;
use kr_tree::{Ino, Tree};
use std::alloc::Global;
use std::marker::Model;

/// The byte at a place of a name, and zero behind its end.
fn byte_at(name: &[u8], at: usize) -> u8
    ensures { result ≡ get_or name.now at 0 }
{
    match name.get(at) {
        Some(byte) => *byte,
        None => 0,
    }
}

/// The first bytes of a name, with zeros behind a shorter one.
fn head_of(name: &[u8]) -> [u8; 8]
    ensures { result ≡ head 8 name.now }
{
    [
        byte_at(name, 0),
        byte_at(name, 1),
        byte_at(name, 2),
        byte_at(name, 3),
        byte_at(name, 4),
        byte_at(name, 5),
        byte_at(name, 6),
        byte_at(name, 7),
    ]
}

/// A name of a directory and its inode. Its first bytes stand beside it, so that most names are
/// compared without a look at where their bytes are.
#[derive(Clone, Copy, PartialEq, Eq, PartialOrd, Ord)]
struct Item<'a> {
    head: [u8; 8],
    name: &'a [u8],
    ino: Ino,
}

/// The names of a directory in the order of their serials; none where there is no directory.
fn items_of<'a>(alloc: Global, tree: &'a Tree, dir: Ino) -> Result<Vec<Item<'a>>, NoMemory>
    ensures pairs { IfOk result (λ items. pairs_of items.items ≡ pairs_in (entries tree.now dir)) }
    ensures heads { IfOk result (λ items. All HasHead items.items) }
{
    trees_are_kept(tree);
    let mut items = Vec::new(alloc);
    let mut after = 0;
    while let Some((serial, name, ino)) = tree.next_entry(dir, after) {
        let head = head_of(name);
        items.push(Item { head, name, ino })?;
        after = serial;
    }
    Ok(items)
}

/// Names of a directory with their inodes, which contracts see as a list in the order of the names.
#[derive(Drop)]
struct InOrder<'a> {
    items: Vec<Item<'a>>,
}

impl<'a> Model for InOrder<'a> {
    ghost use Rattle.std.specs.Prelude.{ℕ, List};
    ghost use Rattle.kr_text.specs.Order.{pairs_of};

    ghost Value = { List (List ℕ × ℕ) };

    ghost view = { λ o. pairs_of o.items.items };
}

impl<'a> InOrder<'a> {
    /// The names of a directory; none where there is no directory.
    fn of(alloc: Global, tree: &'a Tree, dir: Ino) -> Result<InOrder<'a>, NoMemory>
        ensures names { IfOk result (λ names. names ≡ put_in_order [] (entries tree.now dir)) }
        ensures well_formed { IfOk result AreNamed }
    {
        trees_are_kept(tree);
        let mut items = items_of(alloc, tree, dir)?;
        items.sort_unstable();
        Ok(InOrder { items })
    }

    /// Takes the last name away; `None` where none is left.
    fn pop_last(&mut self) -> Option<(&'a [u8], Ino)>
        ensures { MatchOption result (self.old ≡ []) (λ p. self.old ≡ self.new ++ (p.0.now, p.1) ∷ []) }
    {
        let item = self.items.pop()?;
        Some((item.name, item.ino))
    }
}

/// Names that are still to be written, which contracts see as a list with the next one in front.
#[derive(Drop)]
pub(crate) struct Waiting {
    /// The next one stands last.
    names: Vec<Named>,
}

impl Model for Waiting {
    ghost use Rattle.std.specs.Prelude.{List, reverse};
    ghost use Rattle.kr_text.specs.declared.names.Named.{Named};

    ghost Value = { List Named };

    ghost view = { λ w. reverse w.names.items };
}

impl Waiting {
    /// The root alone.
    pub(crate) fn at_root(alloc: Global) -> Result<Waiting, NoMemory>
        ensures { IfOk result (λ waiting. waiting ≡ root_name ∷ []) }
    {
        let mut names = Vec::new(alloc);
        names.push(Named::root(alloc))?;
        Ok(Waiting { names })
    }

    /// Takes the next name; `None` where none is left.
    pub(crate) fn next(&mut self) -> Option<Named>
        ensures { MatchOption result ((self.old ≡ []) × (self.new ≡ [])) (λ name. self.old ≡ name ∷ self.new) }
    {
        self.names.pop()
    }

    /// Puts a name in front.
    fn put(&mut self, name: Named) -> Result<(), NoMemory>
        ensures { OnOk result (self.new ≡ name ∷ self.old) }
    {
        self.names.push(name)?;
        Ok(())
    }

    /// Puts the names of a directory in front, whose own path this is.
    fn put_below(
        &mut self,
        alloc: Global,
        path: &FullPath,
        mut names: InOrder<'_>,
    ) -> Result<(), NoMemory>
        requires { AreNamed names }
        ensures { OnOk result (self.new ≡ map_list (below path.now) names.entry ++ self.old) }
    {
        while let Some((name, ino)) = names.pop_last() {
            let path = path.below(alloc, name)?;
            self.put(Named { path, ino })?;
        }
        Ok(())
    }

    /// Puts the names below a name in front.
    pub(crate) fn put_children(
        &mut self,
        alloc: Global,
        tree: &Tree,
        name: &Named,
    ) -> Result<(), NoMemory>
        ensures { OnOk result (self.new ≡ children tree.now name.now ++ self.old) }
    {
        let names = InOrder::of(alloc, tree, name.ino)?;
        self.put_below(alloc, &name.path, names)
    }
}
