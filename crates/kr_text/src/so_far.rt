//! What was read of a listing so far.
ghost use Rattle.std.specs.Prelude.{◌≡◌, IfSome, OnOk};
ghost use Rattle.kr_tree.specs.kr_inode.Stored.{body_of_new};
ghost use Rattle.kr_text.specs.Answers.{Changes};
ghost use Rattle.kr_text.specs.Drawn.{IsDrawn};
ghost use Rattle.kr_text.specs.Reading.{nothing_read, user_read, root_read, dir_read, node_read, elf_read, proc_read, name_read, line_read, line_added};

use crate::fault::{LineFault, TreeWhy};
use crate::line::{Line, Owner};
use crate::path::Path;
use crate::steps::{elf_put, name_put, node_put, proc_put};
use kr_tree::below::pr_base::Bytes;
use kr_tree::{Meta, Node, Tree, User};
use std::alloc::Global;

/// The tree and the user, once there are lines for them, and whether there was a line of the process
/// directory and one of a file with the ELF source's bytes. What an error leaves isn't read again.
#[derive(Drop)]
pub(crate) struct SoFar {
    pub(crate) tree: Option<Tree>,
    pub(crate) user: Option<User>,
    pub(crate) has_proc: bool,
    pub(crate) has_elf: bool,
}

impl SoFar {
    pub(crate) fn new() -> SoFar
        ensures { result ≡ nothing_read }
    {
        SoFar {
            tree: None,
            user: None,
            has_proc: false,
            has_elf: false,
        }
    }

    fn add_user(&mut self, user: User) -> Result<(), LineFault>
        requires { IfSome self.old.tree IsDrawn }
        ensures value { Changes (user_read user self.old) result self.new }
        ensures drawn { OnOk result (IfSome self.new.tree IsDrawn) }
    {
        if self.user.is_some() {
            return Err(LineFault::Bad(TreeWhy::Twice));
        }
        self.user = Some(user);
        Ok(())
    }

    #[tactic(auto, using(crate::proofs::DrawnLemmas::new_drawn))]
    fn add_root(&mut self, alloc: Global, owner: Owner) -> Result<(), LineFault>
        ensures value { Changes (root_read owner self.old) result self.new }
        ensures drawn { OnOk result (IfSome self.new.tree IsDrawn) }
    {
        if self.tree.is_some() {
            return Err(LineFault::Bad(TreeWhy::Twice));
        }
        let root = Meta {
            mode: owner.mode,
            uid: owner.uid,
            gid: owner.gid,
            names: 0,
            size: 0,
        };
        let tree = Tree::new(alloc, root)?;
        self.tree = Some(tree);
        Ok(())
    }

    fn add_node(&mut self, owner: Owner, path: &Path, node: Node) -> Result<(), LineFault>
        requires { IfSome self.old.tree IsDrawn }
        ensures value { Changes (node_read owner path.now (body_of_new node) self.old) result self.new }
        ensures drawn { OnOk result (IfSome self.new.tree IsDrawn) }
    {
        match &mut self.tree {
            None => Err(LineFault::Bad(TreeWhy::NoParent)),
            Some(tree) => node_put(tree, path, owner, node),
        }
    }

    #[tactic(auto, using(crate::proofs::LineLemmas::other_dir))]
    fn add_dir(&mut self, alloc: Global, owner: Owner, path: &Path) -> Result<(), LineFault>
        requires { IfSome self.old.tree IsDrawn }
        ensures value { Changes (dir_read owner path.now self.old) result self.new }
        ensures drawn { OnOk result (IfSome self.new.tree IsDrawn) }
    {
        if path.is_root() {
            self.add_root(alloc, owner)
        } else {
            self.add_node(owner, path, Node::Dir)
        }
    }

    fn add_elf(
        &mut self,
        alloc: Global,
        owner: Owner,
        path: &Path,
        elf: &[u8],
    ) -> Result<(), LineFault>
        requires { IfSome self.old.tree IsDrawn }
        ensures value { Changes (elf_read owner path.now elf.now self.old) result self.new }
        ensures drawn { OnOk result (IfSome self.new.tree IsDrawn) }
    {
        let bytes = Bytes::copy(alloc, elf)?;
        let has_elf = self.has_elf;
        self.has_elf = true;
        match &mut self.tree {
            None => Err(LineFault::Bad(TreeWhy::NoParent)),
            Some(tree) => elf_put(tree, path, owner, bytes, has_elf),
        }
    }

    fn add_name(&mut self, path: &Path, existing: &Path) -> Result<(), LineFault>
        requires { IfSome self.old.tree IsDrawn }
        ensures value { Changes (name_read path.now existing.now self.old) result self.new }
        ensures drawn { OnOk result (IfSome self.new.tree IsDrawn) }
    {
        match &mut self.tree {
            None => Err(LineFault::Bad(TreeWhy::NoParent)),
            Some(tree) => name_put(tree, path, existing),
        }
    }

    fn add_proc(&mut self, path: &Path) -> Result<(), LineFault>
        requires { IfSome self.old.tree IsDrawn }
        ensures value { Changes (proc_read path.now self.old) result self.new }
        ensures drawn { OnOk result (IfSome self.new.tree IsDrawn) }
    {
        let has_proc = self.has_proc;
        self.has_proc = true;
        match &mut self.tree {
            None => Err(LineFault::Bad(TreeWhy::NoParent)),
            Some(tree) => proc_put(tree, path, has_proc),
        }
    }

    /// Adds what a line says.
    fn add(&mut self, alloc: Global, elf: &[u8], line: Line) -> Result<(), LineFault>
        requires { IfSome self.old.tree IsDrawn }
        ensures value { Changes (line_read elf.now line self.old) result self.new }
        ensures drawn { OnOk result (IfSome self.new.tree IsDrawn) }
    {
        match line {
            Line::User(user) => self.add_user(user),
            Line::Dir(owner, path) => self.add_dir(alloc, owner, &path),
            Line::File(owner, path, bytes) => self.add_node(owner, &path, Node::File(bytes)),
            Line::Elf(owner, path) => self.add_elf(alloc, owner, &path, elf),
            Line::Link(owner, path, text) => self.add_node(owner, &path, Node::Link(text)),
            Line::Name(path, existing) => self.add_name(&path, &existing),
            Line::Proc(path) => self.add_proc(&path),
        }
    }

    /// Reads one line, its newline left out.
    #[tactic(auto, using(crate::proofs::LineLemmas::bad_line))]
    pub(crate) fn read(&mut self, alloc: Global, elf: &[u8], line: &[u8]) -> Result<(), LineFault>
        requires { IfSome self.old.tree IsDrawn }
        ensures value { Changes (line_added elf.now line.now self.old) result self.new }
        ensures drawn { OnOk result (IfSome self.new.tree IsDrawn) }
    {
        let line = Line::read(alloc, line)?;
        self.add(alloc, elf, line)
    }
}
