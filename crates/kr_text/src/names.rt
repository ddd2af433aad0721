//! The names of a tree.
ghost use Rattle.std.specs.Prelude.{◌≡◌, ◌∷◌, [], true, IfOk};
ghost use Rattle.kr_tree.specs.Names.{is_name};
ghost use Rattle.kr_tree.specs.pr_base.Paths.{text_of};
ghost use Rattle.kr_text.specs.Canonical.{root_name};

use kr_tree::below::pr_base::NoMemory;
use kr_tree::{Ino, ROOT};
use std::alloc::Global;
use std::marker::Model;

/// A path of any length from the root, which contracts see as the list of its names, the deepest
/// first. That of the root has no bytes here.
#[derive(Drop)]
pub(crate) struct FullPath {
    below_root: Vec<u8>,
}

impl Model for FullPath {
    ghost use Rattle.std.specs.Prelude.{◌≡◌, ℕ, List, reverse};
    ghost use Rattle.kr_tree.specs.pr_base.Paths.{parts_of, below_root as bytes_below_root};

    ghost Value = { List (List ℕ) };

    ghost view = { λ p. reverse (parts_of p.below_root.items) };

    ghost invariant = { λ p. bytes_below_root (reverse (parts_of p.below_root.items)) ≡ p.below_root.items };
}

impl FullPath {
    /// The path of the root. It takes no memory yet.
    fn root(alloc: Global) -> FullPath
        ensures { result ≡ [] }
    {
        FullPath {
            below_root: Vec::new(alloc),
        }
    }

    /// The path of a name in the directory of this path.
    pub(crate) fn below(&self, alloc: Global, name: &[u8]) -> Result<FullPath, NoMemory>
        requires { is_name name.now ≡ true }
        ensures { IfOk result (λ path. path ≡ name.now ∷ self.now) }
    {
        let mut below_root = self.below_root.to_vec(alloc)?;
        below_root.push(b'/')?;
        below_root.extend_from_slice(name)?;
        Ok(FullPath { below_root })
    }

    /// Its bytes.
    pub(crate) fn as_slice(&self) -> &[u8]
        ensures { result.now ≡ text_of self.now }
    {
        if self.below_root.is_empty() {
            b"/"
        } else {
            self.below_root.as_slice()
        }
    }
}

/// A path and the inode that it names.
#[derive(Drop)]
pub(crate) struct Named {
    pub(crate) path: FullPath,
    pub(crate) ino: Ino,
}

impl Named {
    /// The root.
    pub(crate) fn root(alloc: Global) -> Named
        ensures { result ≡ root_name }
    {
        Named {
            path: FullPath::root(alloc),
            ino: ROOT,
        }
    }
}
