//! The canonical listing.
ghost use Rattle.std.specs.Prelude.{◌≡◌, ◌∷◌, ◌++◌, [], List, IfOk, OnOk};
ghost use Rattle.kr_text.specs.declared.names.Named.{Named as NamedPath};
ghost use Rattle.kr_text.specs.Canonical.{canonical, children};
ghost use Rattle.kr_text.specs.FirstNames.{AreFirst, has_several};

use crate::names::{FullPath, Named};
use crate::order::Waiting;
use crate::written::{line_at, user_line};
use kr_tree::below::pr_base::{Bytes, NoMemory};
use kr_tree::laws::trees_are_kept;
use kr_tree::{Ino, Tree, User};
use std::alloc::Global;
use std::collections::BTreeMap;

/// Whether an inode has several names.
fn has_several_names(tree: &Tree, ino: Ino) -> bool
    ensures { result ≡ has_several tree.now ino }
{
    match tree.meta(ino) {
        Some(meta) => 1 < meta.names,
        None => false,
    }
}

/// Notes a name that was written, if its inode has several and none of them was noted yet.
fn note(tree: &Tree, name: Named, first: &mut BTreeMap<Ino, FullPath>) -> Result<(), NoMemory>
    ensures { OnOk result ((earlier : List NamedPath) → AreFirst tree.now first.old earlier → AreFirst tree.now first.new (earlier ++ name ∷ [])) }
{
    let Named { path, ino } = name;
    if has_several_names(tree, ino) && !first.contains_key(&ino) {
        first.insert(ino, path)?;
    }
    Ok(())
}

/// Goes on behind a name that was written: one of a file may be named again, and nothing is below it;
/// the names below any other come next.
fn go_on(
    alloc: Global,
    tree: &Tree,
    name: Named,
    first: &mut BTreeMap<Ino, FullPath>,
    waiting: &mut Waiting,
) -> Result<(), NoMemory>
    ensures first { OnOk result ((earlier : List NamedPath) → AreFirst tree.now first.old earlier → AreFirst tree.now first.new (earlier ++ name ∷ [])) }
    ensures waiting { OnOk result (waiting.new ≡ children tree.now name ++ waiting.old) }
{
    if tree.is_file(name.ino) {
        note(tree, name, first)
    } else {
        waiting.put_children(alloc, tree, &name)
    }
}

/// Writes a tree and its user as their canonical listing: the user's line, and one for each name, in
/// the order of their components by bytes. Each file's bytes stand at its first name.
pub fn write(alloc: Global, tree: &Tree, user: User) -> Result<Bytes, NoMemory>
    ensures { IfOk result (λ listing. listing ≡ canonical tree.now user) }
{
    trees_are_kept(tree);
    let mut listing = user_line(alloc, user)?;
    let mut first = BTreeMap::new(alloc);
    let mut waiting = Waiting::at_root(alloc)?;
    while let Some(name) = waiting.next() {
        line_at(alloc, &mut listing, tree, &name, first.get(&name.ino))?;
        go_on(alloc, tree, name, &mut first, &mut waiting)?;
    }
    Ok(Bytes::from(listing))
}
