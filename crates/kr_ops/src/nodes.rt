//! Changes of nodes, and new names of them. What takes a name away stands with what remembers names.
ghost use Rattle.std.specs.Prelude.{◌≡◌, ℕ, ◌+◌, ◌<◌, ◌^◌, ◌↔◌, ◌&&◌, not, true, None, IsSome, IsTrue, IsErrOf, IfOk, OnOk, OnErr, length};
ghost use Rattle.law_lawful.specs.kr_inode.Stored.{body_of_new};
ghost use Rattle.law_lawful.specs.kr_tree.Tree.{inode, entry, body_is, takes_names, may_be_linked, is_file, bytes_of};
ghost use Rattle.law_lawful.specs.kr_tree.Names.{is_name};
ghost use Rattle.law_lawful.specs.kr_tree.Changes.{has_no_name_left, has_no_room, has_no_room_for, is_past_file, is_too_big, next_serial, size, size_written};
ghost use Rattle.law_lawful.specs.kr_model.Change.{AddNode, LinkNode, SetMode, SetOwner, SetSize, WriteFile};
ghost use Rattle.kr_ops.specs.Meaning.{meaning};
ghost use Rattle.kr_ops.specs.Making.{Makes};
ghost use Rattle.kr_ops.specs.Sound.{IsServed};

use crate::state::State;
use law_lawful::below::{Ino, Meta, Node, TreeRefusal};

impl<T: Copy, const M: u8> State<T, M> {
    /// Puts a new node under a free name of a directory, and gives its number. TooBig comes before Full.
    pub fn add_node(
        &mut self,
        dir: Ino,
        name: &[u8],
        node: Node,
        meta: Meta,
    ) -> Result<Ino, TreeRefusal>
        requires directory { body_is takes_names self.old.tree dir ≡ true }
        requires well_formed { is_name name.now ≡ true }
        requires free { entry self.old.tree dir name.now ≡ None }
        requires numbers { self.old.tree.next + 1 < 2 ^ 32 }
        requires serials { next_serial self.old.tree dir + 1 < 2 ^ 64 }
        ensures too_big { IsErrOf result TreeRefusal.TooBig ↔ IsTrue (is_too_big (body_of_new node)) }
        ensures full { IsErrOf result TreeRefusal.Full ↔ IsTrue (not (is_too_big (body_of_new node)) && has_no_room (length (bytes_of (body_of_new node))) self.old.tree) }
        ensures number { IfOk result (λ ino. ino ≡ self.old.tree.next) }
        ensures ok { (pid : ℕ) → OnOk result (Makes pid (AddNode dir name.now meta.mode meta.uid meta.gid (body_of_new node)) self.old self.new) }
        ensures served { IsServed self.old → IsServed self.new }
        ensures err { OnErr result (meaning self.new ≡ meaning self.old) }
    {
        self.tree.add(dir, name, node, meta)
    }

    /// Puts another name of a file or a link into a directory.
    pub fn link_node(&mut self, dir: Ino, name: &[u8], ino: Ino) -> Result<(), TreeRefusal>
        requires directory { body_is takes_names self.old.tree dir ≡ true }
        requires well_formed { is_name name.now ≡ true }
        requires free { entry self.old.tree dir name.now ≡ None }
        requires serials { next_serial self.old.tree dir + 1 < 2 ^ 64 }
        requires file { body_is may_be_linked self.old.tree ino ≡ true }
        ensures full { IsErrOf result TreeRefusal.Full ↔ IsTrue (has_no_name_left self.old.tree) }
        ensures never_too_big { ¬ IsErrOf result TreeRefusal.TooBig }
        ensures ok { (pid : ℕ) → OnOk result (Makes pid (LinkNode dir name.now ino) self.old self.new) }
        ensures served { IsServed self.old → IsServed self.new }
        ensures err { OnErr result (meaning self.new ≡ meaning self.old) }
    {
        self.tree.link(dir, name, ino)
    }

    /// Gives a node another mode.
    pub fn set_mode(&mut self, ino: Ino, mode: u16)
        requires { IsSome (inode self.old.tree ino) }
        ensures makes { (pid : ℕ) → Makes pid (SetMode ino mode) self.old self.new }
        ensures served { IsServed self.old → IsServed self.new }
    {
        self.tree.set_mode(ino, mode);
    }

    /// Gives a node another owner and group.
    pub fn set_owner(&mut self, ino: Ino, uid: u32, gid: u32)
        requires { IsSome (inode self.old.tree ino) }
        ensures makes { (pid : ℕ) → Makes pid (SetOwner ino uid gid) self.old self.new }
        ensures served { IsServed self.old → IsServed self.new }
    {
        self.tree.set_owner(ino, uid, gid);
    }

    /// Cuts a file at a size, or fills it with zeros up to it. TooBig comes before Full.
    pub fn set_size(&mut self, file: Ino, size: u64) -> Result<(), TreeRefusal>
        requires { body_is is_file self.old.tree file ≡ true }
        ensures too_big { IsErrOf result TreeRefusal.TooBig ↔ IsTrue (is_past_file size) }
        ensures full { IsErrOf result TreeRefusal.Full ↔ IsTrue (not (is_past_file size) && has_no_room_for file size self.old.tree) }
        ensures ok { (pid : ℕ) → OnOk result (Makes pid (SetSize file size) self.old self.new) }
        ensures served { IsServed self.old → IsServed self.new }
        ensures err { OnErr result (meaning self.new ≡ meaning self.old) }
    {
        self.tree.set_size(file, size)
    }

    /// Writes bytes into a file from a place on, with zeros in a gap before them. TooBig comes before Full.
    pub fn write_file(&mut self, file: Ino, at: u64, bytes: &[u8]) -> Result<(), TreeRefusal>
        requires { body_is is_file self.old.tree file ≡ true }
        ensures too_big { let after = size_written at (length bytes.now) (size self.old.tree file) in
            IsErrOf result TreeRefusal.TooBig ↔ IsTrue (is_past_file after) }
        ensures full { let after = size_written at (length bytes.now) (size self.old.tree file) in
            IsErrOf result TreeRefusal.Full ↔ IsTrue (not (is_past_file after) && has_no_room_for file after self.old.tree) }
        ensures ok { (pid : ℕ) → OnOk result (Makes pid (WriteFile file at bytes.now) self.old self.new) }
        ensures served { IsServed self.old → IsServed self.new }
        ensures err { OnErr result (meaning self.new ≡ meaning self.old) }
    {
        self.tree.write_file(file, at, bytes)
    }
}
