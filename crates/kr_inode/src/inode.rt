//! One inode.
ghost use Rattle.std.specs.Prelude.{◌≡◌, ◌+◌, ◌-◌, ◌^◌, ◌<◌, ◌≤◌, true, false, [], Some, None, OnOk, OnErr, IsSome, IsTrue, ◌↔◌, length};
ghost use Rattle.std.specs.Option.{option_map, option_copied};

use crate::content::Content;
use crate::entries::Slot;
use crate::node::{Ino, Kind, Meta, Node};
use crate::standing::Standing;
use crate::user::{Right, User};
use pr_base::{NoMemory, bits};
use std::alloc::Global;
use std::marker::Model;

/// A node with the counts that are kept beside it.
#[derive(Drop)]
pub struct Inode {
    mode: u16,
    uid: u32,
    gid: u32,
    names: u32,
    holds: u32,
    content: Content,
}

impl Model for Inode {
    ghost use Rattle.kr_inode.specs.Inode.{Inode, inode_code};
    ghost use Rattle.kr_inode.specs.Stored.{body_stored, next_serial_stored, directories_stored};

    ghost Value = { Inode };

    ghost coded = { inode_code };

    ghost view = { λ x. record { node = record { mode = x.mode; uid = x.uid; gid = x.gid; body = body_stored x.content }; names = x.names; holds = x.holds; next_serial = next_serial_stored x.content; directories = directories_stored x.content } };
}

impl Inode {
    ghost use Rattle.kr_inode.specs.Inode.{bytes_of, entry_named, entry_at, entry_after, entries_of, standing_of, is_listed, takes_names, is_filled, is_file, may_be_linked, is_directory, file_of, text_of};
    ghost use Rattle.kr_inode.specs.Rights.{allows};
    ghost use Rattle.kr_inode.specs.Names.{is_name};
    ghost use Rattle.kr_inode.specs.Entries.{slot_of};
    ghost use Rattle.kr_inode.specs.Stored.{kind_of, meta_of, body_of_new};
    ghost use Rattle.kr_inode.specs.Changes.{with_mode, with_owner, with_names, with_holds, with_entry, without_entry, unnamed, with_body, with_standing, with_bytes, sized, overwritten, is_unused, counted, fresh};

    /// A new inode with one name, by what a caller hands in and where it stands if it is a directory.
    pub fn new(alloc: Global, node: Node, meta: Meta, standing: Standing) -> Inode
        ensures { result ≡ fresh meta.mode meta.uid meta.gid (with_standing (Some standing) (body_of_new node)) }
    {
        Inode {
            mode: meta.mode,
            uid: meta.uid,
            gid: meta.gid,
            names: 1,
            holds: 0,
            content: Content::new(alloc, node, standing),
        }
    }

    /// Its kind.
    pub fn kind(&self) -> Kind
        ensures { result ≡ kind_of self.now.node.body }
    {
        match &self.content {
            Content::Dir(_) => Kind::Dir,
            Content::File(_) => Kind::File,
            Content::Link(_) => Kind::Link,
            Content::Proc(_) => Kind::Proc,
        }
    }

    /// How many bytes a file or a link's text has; 0 of any other.
    pub fn size(&self) -> u64
        ensures { result ≡ length (bytes_of self.now.node.body) }
    {
        match &self.content {
            Content::File(bytes) | Content::Link(bytes) => bytes.len() as u64,
            Content::Dir(_) | Content::Proc(_) => 0,
        }
    }

    /// What stat(2) tells of it.
    pub fn meta(&self) -> Meta
        ensures { result ≡ meta_of self.now }
    {
        Meta {
            mode: self.mode,
            uid: self.uid,
            gid: self.gid,
            names: self.names,
            size: self.size(),
        }
    }

    /// What is kept at a name of a directory.
    pub fn find(&self, name: &[u8]) -> Option<Slot>
        ensures { result ≡ option_map slot_of (entry_named name.now (entries_of self.now.node.body)) }
    {
        match &self.content {
            Content::Dir(dir) => dir.entries.find(name),
            _ => None,
        }
    }

    /// The first entry of a directory whose serial is above one: its serial, name and inode.
    pub fn after(&self, serial: u64) -> Option<(u64, &[u8], Ino)>
        ensures { option_map (λ p. record { name = p.1.now; serial = p.0; inode = p.2 }) result ≡ entry_after serial (entries_of self.now.node.body) }
    {
        match &self.content {
            Content::Dir(dir) => dir.entries.after(serial),
            _ => None,
        }
    }

    /// The entry of a directory that has a serial: its name and inode.
    pub fn at(&self, serial: u64) -> Option<(&[u8], Ino)>
        ensures { option_map (λ p. record { name = p.0.now; serial = serial; inode = p.1 }) result ≡ entry_at serial (entries_of self.now.node.body) }
    {
        match &self.content {
            Content::Dir(dir) => dir.entries.at(serial),
            _ => None,
        }
    }

    /// Where a directory stands.
    pub fn standing(&self) -> Option<Standing>
        ensures { result ≡ standing_of self.now.node.body }
    {
        match &self.content {
            Content::Dir(dir) => dir.standing,
            Content::Proc(standing) => *standing,
            _ => None,
        }
    }

    /// Whether it is a directory, as the process directory is.
    pub fn is_directory(&self) -> bool
        ensures { result ≡ is_directory self.now.node.body }
    {
        matches!(&self.content, Content::Dir(_) | Content::Proc(_))
    }

    /// Whether names can be put into it: a directory proper that wasn't removed.
    pub fn takes_names(&self) -> bool
        ensures { result ≡ takes_names self.now.node.body }
    {
        match &self.content {
            Content::Dir(dir) => dir.standing.is_some(),
            _ => false,
        }
    }

    /// Whether it is a file.
    pub fn is_file(&self) -> bool
        ensures { result ≡ is_file self.now.node.body }
    {
        matches!(&self.content, Content::File(_))
    }

    /// Whether it is a file or a link, which may have several names.
    pub fn may_be_linked(&self) -> bool
        ensures { result ≡ may_be_linked self.now.node.body }
    {
        matches!(&self.content, Content::File(_) | Content::Link(_))
    }

    /// Whether it is a directory with entries.
    pub fn is_filled(&self) -> bool
        ensures { result ≡ is_filled self.now.node.body }
    {
        match &self.content {
            Content::Dir(dir) => !dir.entries.is_empty(),
            _ => false,
        }
    }

    /// The bytes of a file.
    pub fn file(&self) -> Option<&[u8]>
        ensures { option_copied result ≡ file_of self.now.node.body }
    {
        match &self.content {
            Content::File(bytes) => Some(bytes.as_slice()),
            _ => None,
        }
    }

    /// The text of a link.
    pub fn link_text(&self) -> Option<&[u8]>
        ensures { option_copied result ≡ text_of self.now.node.body }
    {
        match &self.content {
            Content::Link(text) => Some(text.as_slice()),
            _ => None,
        }
    }

    /// How often it is held.
    pub fn holds(&self) -> u32
        ensures { result ≡ self.now.holds }
    {
        self.holds
    }

    /// Whether nothing names or holds it.
    pub fn is_unused(&self) -> bool
        ensures { result ≡ is_unused self.now }
    {
        self.names == 0 && self.holds == 0
    }

    /// The serial that a directory's next entry takes.
    pub fn next_serial(&self) -> u64
        ensures { result ≡ self.now.next_serial }
    {
        match &self.content {
            Content::Dir(dir) => dir.entries.next_serial(),
            _ => 3,
        }
    }

    /// How many of a directory's entries are directories.
    pub fn directories(&self) -> u32
        ensures { result ≡ self.now.directories }
    {
        match &self.content {
            Content::Dir(dir) => dir.directories,
            _ => 0,
        }
    }

    /// Whether the user has a right to it, by the first class of its mode that fits the user.
    pub fn allows(&self, user: User, right: Right) -> bool
        ensures { result ≡ allows user self.now.node right }
    {
        let mode = u32::from(self.mode);
        let class = if user.uid == self.uid {
            bits::<8, 6>(mode)
        } else if user.gid == self.gid {
            bits::<5, 3>(mode)
        } else {
            bits::<2, 0>(mode)
        };
        let bit = match right {
            Right::Read => bits::<2, 2>(class),
            Right::Write => bits::<1, 1>(class),
            Right::Search => bits::<0, 0>(class),
        };
        bit == 1
    }

    /// Whether the nodes are the same, without what is kept beside them.
    pub fn same(&self, other: &Inode) -> bool
        ensures { IsTrue result ↔ (self.now.node ≡ other.now.node) }
    {
        self.mode == other.mode
            && self.uid == other.uid
            && self.gid == other.gid
            && self.content.same(&other.content)
    }

    pub fn set_mode(&mut self, mode: u16)
        ensures { self.new ≡ with_mode mode self.old }
    {
        self.mode = mode;
    }

    pub fn set_owner(&mut self, uid: u32, gid: u32)
        ensures { self.new ≡ with_owner uid gid self.old }
    {
        self.uid = uid;
        self.gid = gid;
    }

    /// One more hold.
    pub fn hold(&mut self)
        requires { self.old.holds + 1 < 2 ^ 32 }
        ensures { self.new ≡ with_holds (λ n. n + 1) self.old }
    {
        self.holds += 1;
    }

    /// One hold less.
    pub fn release(&mut self)
        requires { 0 < self.old.holds }
        ensures { self.new ≡ with_holds (λ n. n - 1) self.old }
    {
        self.holds -= 1;
    }

    /// One more name.
    pub fn add_name(&mut self)
        requires { self.old.names + 1 < 2 ^ 32 }
        ensures { self.new ≡ with_names (λ n. n + 1) self.old }
    {
        self.names += 1;
    }

    /// One name less; a directory then stands nowhere.
    pub fn remove_name(&mut self)
        requires { 0 < self.old.names }
        ensures { self.new ≡ unnamed self.old }
    {
        self.names -= 1;
        self.stand(None);
    }

    /// Another place for a directory.
    pub fn stand(&mut self, standing: Option<Standing>)
        ensures { self.new ≡ with_body (with_standing standing) self.old }
    {
        match &mut self.content {
            Content::Dir(dir) => dir.standing = standing,
            Content::Proc(old) => *old = standing,
            _ => {}
        }
    }

    /// Cuts a file at a size, or fills it with zeros up to it. Where memory is wanting nothing
    /// changes.
    pub fn resize(&mut self, size: usize) -> Result<(), NoMemory>
        ensures ok { OnOk result (self.new ≡ with_body (with_bytes (sized size)) self.old) }
        ensures err { OnErr result (self.new ≡ self.old) }
    {
        self.content.resize(size)
    }

    /// Writes bytes into a file from a place on. Where memory is wanting nothing changes.
    pub fn overwrite(&mut self, at: usize, b: &[u8]) -> Result<(), NoMemory>
        requires { 0 < length b.now → at + length b.now < 2 ^ 63 }
        ensures ok { OnOk result (self.new ≡ with_body (with_bytes (overwritten at b.now)) self.old) }
        ensures err { OnErr result (self.new ≡ self.old) }
    {
        self.content.overwrite(at, b)
    }

    /// One more entry of a directory.
    pub fn add_entry(&mut self, name: Vec<u8>, inode: Ino, is_dir: bool) -> Result<(), NoMemory>
        requires directory { IsTrue (is_listed self.old.node.body) }
        requires well_formed { is_name name.items ≡ true }
        requires free { entry_named name.items (entries_of self.old.node.body) ≡ None }
        requires serials { self.old.next_serial + 1 < 2 ^ 64 }
        requires directories { self.old.directories + 1 < 2 ^ 32 }
        ensures ok { OnOk result (self.new ≡ with_entry name.items inode is_dir self.old) }
        ensures err { OnErr result (self.new ≡ self.old) }
    {
        match &mut self.content {
            Content::Dir(dir) => dir.add(name, inode, is_dir),
            _ => unreachable!(),
        }
    }

    /// An entry of a directory for another inode in place of one of the same name. Both are
    /// directories or neither is.
    pub fn replace_entry(&mut self, name: &[u8], inode: Ino, is_dir: bool) -> Result<(), NoMemory>
        requires directory { IsTrue (is_listed self.old.node.body) }
        requires named { IsSome (entry_named name.now (entries_of self.old.node.body)) }
        requires serials { self.old.next_serial + 1 < 2 ^ 64 }
        requires directories { counted is_dir ≤ self.old.directories }
        ensures ok { OnOk result (self.new ≡ with_entry name.now inode is_dir (without_entry name.now is_dir self.old)) }
        ensures err { OnErr result (self.new ≡ self.old) }
    {
        match &mut self.content {
            Content::Dir(dir) => dir.replace(name, inode),
            _ => unreachable!(),
        }
    }

    /// An entry of a directory taken away.
    pub fn remove_entry(&mut self, name: &[u8], is_dir: bool)
        ensures { self.new ≡ without_entry name.now is_dir self.old }
    {
        if let Content::Dir(dir) = &mut self.content {
            dir.remove(name, is_dir);
        }
    }
}
