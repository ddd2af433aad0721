//! What a path leads to in a tree.
ghost use Rattle.std.specs.Prelude.{◌≡◌, true, None, reverse, IfOk};
ghost use Rattle.kr_tree.specs.Tree.{body_is, takes_names, is_file, entry};
ghost use Rattle.kr_tree.specs.pr_base.Paths.{parts_of};
ghost use Rattle.kr_tree.specs.Names.{named, is_name};
ghost use Rattle.kr_text.specs.Reading.{place_below, free_in, directory_of, file_at};
ghost use Rattle.kr_text.specs.Spots.{IsSpot};

use crate::fault::TreeWhy;
use crate::path::Path;
use kr_tree::below::pr_base::components;
use kr_tree::{Ino, ROOT, Tree};

/// The inode that a path names; `None` where there is none.
fn named(tree: &Tree, path: &[u8]) -> Option<Ino>
    ensures { result ≡ named tree.now (reverse (parts_of path.now)) }
{
    let mut ino = ROOT;
    for name in components(path) {
        match tree.entry(ino, name) {
            None => return None,
            Some(next) => ino = next,
        }
    }
    Some(ino)
}

/// The file that a path names.
pub(crate) fn file_at(tree: &Tree, path: &Path) -> Result<Ino, TreeWhy>
    ensures value { result ≡ file_at tree.now path.now }
    ensures file { IfOk result (λ ino. body_is is_file tree.now ino ≡ true) }
{
    match named(tree, path.bytes()) {
        None => Err(TreeWhy::NoTarget),
        Some(ino) => {
            if tree.is_file(ino) {
                Ok(ino)
            } else {
                Err(TreeWhy::NoTarget)
            }
        }
    }
}

/// A directory and a name that is free in it.
#[derive(Clone, Copy)]
pub(crate) struct Spot<'a> {
    pub(crate) dir: Ino,
    pub(crate) name: &'a [u8],
}

/// What stands before the last name of a path is walked, and the last name is left.
fn free_in<'a>(tree: &Tree, dir: Option<Ino>, name: &'a [u8]) -> Result<Spot<'a>, TreeWhy>
    ensures spot { IsSpot (free_in tree.now name.now (directory_of tree.now dir)) result }
    ensures takes { IfOk result (λ spot. body_is takes_names tree.now spot.dir ≡ true) }
    ensures free { IfOk result (λ spot. entry tree.now spot.dir spot.name.now ≡ None) }
    ensures name { IfOk result (λ spot. spot.name.now ≡ name.now) }
{
    let Some(dir) = dir else {
        return Err(TreeWhy::NoParent);
    };
    if !tree.takes_names(dir) {
        return Err(TreeWhy::NoParent);
    }
    match tree.entry(dir, name) {
        None => Ok(Spot { dir, name }),
        Some(_taken) => Err(TreeWhy::Twice),
    }
}

/// The directory and the name at which a path's node can be added.
pub(crate) fn place_below<'a>(tree: &Tree, path: &'a Path) -> Result<Spot<'a>, TreeWhy>
    ensures spot { IsSpot (place_below tree.now path.now) result }
    ensures takes { IfOk result (λ spot. body_is takes_names tree.now spot.dir ≡ true) }
    ensures free { IfOk result (λ spot. entry tree.now spot.dir spot.name.now ≡ None) }
    ensures well_formed { IfOk result (λ spot. is_name spot.name.now ≡ true) }
{
    let mut names = components(path.bytes()).into_iter();
    let Some(mut last) = names.next() else {
        return Err(TreeWhy::Twice);
    };
    let mut dir = Some(ROOT);
    for name in names {
        dir = match dir {
            Some(above) => tree.entry(above, last),
            None => None,
        };
        last = name;
    }
    free_in(tree, dir, last)
}
