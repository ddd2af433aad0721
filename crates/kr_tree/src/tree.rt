//! The tree.
ghost use Rattle.std.specs.Prelude.{◌≡◌, ◌≢◌, ◌+◌, ◌-◌, ◌^◌, ◌<◌, ◌≤◌, ◌↔◌, ◌&&◌, not, true, false, Some, None, OnOk, OnErr, IfOk, IsSome, length, IsErrOf, IsTrue, IfSome, ℕ, reverse};
ghost use Rattle.std.specs.Option.{option_map, option_map_or, option_and_then, option_copied};
ghost use Rattle.kr_tree.specs.Changes.{size_written, is_past_file, file_limit, byte_limit};
ghost use Rattle.kr_tree.specs.Lawful.{AreBytes, IsOfBytes};
ghost use Rattle.kr_inode.specs.Stored.{body_of_new};

use crate::name::{append_backward, from_end};
use crate::refusal::TreeRefusal;
use crate::store::Store;
use kr_inode::below::pr_base::{Bytes, NoMemory};
use kr_inode::{FILE_LIMIT, Ino, Inode, Kind, Meta, Node, Right, Standing, User, is_name};
use std::alloc::Global;
use std::marker::Model;

/// The number of the root.
pub const ROOT: Ino = 1;

/// The most inodes, and the most names, the root's apart.
const COUNT_LIMIT: u32 = 1_048_576;

/// The most bytes of files and links' texts in all.
const BYTE_LIMIT: u64 = 268_435_456;

/// A tree of inodes: directories, files, links and at most one way to each directory. A proof sees
/// it as a finite map of inodes by their numbers.
#[derive(Drop)]
pub struct Tree {
    store: Store,
    next: Ino,
    names: u32,
    bytes: u64,
    alloc: Global,
}

impl Model for Tree {
    ghost use Rattle.kr_tree.specs.Tree.{Tree, tree_code};
    ghost use Rattle.kr_tree.specs.Lawful.{IsKept};

    ghost Value = { Tree };

    ghost coded = { tree_code };

    ghost view = { λ t. record { inodes = t.store; next = t.next; names = t.names; bytes = t.bytes } };

    ghost invariant = { λ t. IsKept (record { inodes = t.store; next = t.next; names = t.names; bytes = t.bytes }) };
}

impl Tree {
    ghost use Rattle.kr_tree.specs.Tree.{nodes, inode, body, entry, entries, entry_after, above, body_is, is_directory, is_filled, takes_names, may_be_linked, is_file, file_of, text_of, bytes_of};
    ghost use Rattle.kr_inode.specs.pr_base.Paths.{below_root, text_of as bytes_of_text};
    ghost use Rattle.kr_tree.specs.Rights.{may};
    ghost use Rattle.kr_tree.specs.Names.{is_name, step_up, host_name, NamedHaveHostNames, StandingHaveHostNames, HostNamesLead};
    ghost use Rattle.kr_inode.specs.Stored.{kind_of, meta_of};
    ghost use Rattle.kr_tree.specs.Changes.{new_tree, added, next_serial, is_too_big, has_no_room, has_no_name_left, linked, removed, moved, unlinked, renamed, held, released, mode_set, owner_set, bytes_set, sized, overwritten, size, has_no_room_for};
    ghost use Rattle.kr_tree.specs.Lawful.{IsKept, HasItsInodes, IsBelow, IsLawfulMove};

    /// A tree with a root alone, by the mode, owner and group of `root`.
    pub fn new(alloc: Global, root: Meta) -> Result<Tree, NoMemory>
        ensures { IfOk result (λ tree. tree ≡ new_tree root.mode root.uid root.gid) }
    {
        let standing = Standing {
            inode: ROOT,
            serial: 0,
        };
        let mut store = Store::new(alloc);
        store.insert(ROOT, Inode::new(alloc, Node::Dir, root, standing))?;
        Ok(Tree {
            store,
            next: ROOT + 1,
            names: 0,
            bytes: 0,
            alloc,
        })
    }

    /// What holds of every tree.
    pub(crate) fn is_kept(&self)
        ensures kept { IsKept self.now }
        ensures there { HasItsInodes self.now }
    {
        // For the proof alone: what holds of each `Tree`.
        let _ = &self.next;
    }

    /// How the host names of its directories and the texts that lead to them belong together.
    pub(crate) fn has_host_names(&self)
        ensures named { NamedHaveHostNames self.now }
        ensures standing { StandingHaveHostNames self.now }
        ensures lead { HostNamesLead self.now }
    {
        // For the proof alone: what holds of each `Tree`.
        let _ = &self.next;
    }

    /// The kind of an inode; `None` exactly where it isn't there.
    pub fn kind(&self, ino: Ino) -> Option<Kind>
        ensures { result ≡ option_map kind_of (body self.now ino) }
    {
        match self.store.get(ino) {
            Some(inode) => Some(inode.kind()),
            None => None,
        }
    }

    /// What stat(2) tells of an inode; `None` exactly where it isn't there.
    pub fn meta(&self, ino: Ino) -> Option<Meta>
        ensures { result ≡ option_map meta_of (inode self.now ino) }
    {
        match self.store.get(ino) {
            Some(inode) => Some(inode.meta()),
            None => None,
        }
    }

    /// The inode of a name in a directory; `None` exactly where there is no such entry.
    pub fn entry(&self, dir: Ino, name: &[u8]) -> Option<Ino>
        ensures { result ≡ entry self.now dir name.now }
    {
        match self.store.get(dir)?.find(name) {
            Some(slot) => Some(slot.inode),
            None => None,
        }
    }

    /// The first entry of a directory whose serial is above `after`: its serial, name and inode.
    /// `None` exactly where no entry's is.
    pub fn next_entry(&self, dir: Ino, after: u64) -> Option<(u64, &[u8], Ino)>
        ensures { option_map (λ p. record { name = p.1.now; serial = p.0; inode = p.2 }) result ≡ entry_after after (entries self.now dir) }
    {
        self.store.get(dir)?.after(after)
    }

    /// The inode above a directory or the process directory; `None` exactly where it is neither or
    /// was removed. Above the root is the root.
    pub fn above(&self, dir: Ino) -> Option<Ino>
        ensures { result ≡ above self.now dir }
    {
        match self.store.get(dir)?.standing() {
            Some(standing) => Some(standing.inode),
            None => None,
        }
    }

    /// Whether a directory is another or stands below it.
    pub fn is_below(&self, top: Ino, dir: Ino) -> bool
        ensures { IsTrue result ↔ IsBelow self.now top dir }
    {
        // No directory is met twice on the way up, so it has fewer steps than numbers were drawn.
        let mut at = dir;
        for _step in 0..self.next {
            if at == top {
                return true;
            }
            if at == ROOT {
                return false;
            }
            match self.above(at) {
                Some(up) => at = up,
                None => return false,
            }
        }
        false
    }

    /// The host name of a directory or the process directory, from the root on; `None` exactly where
    /// it is neither, was removed or stands below one that was.
    pub fn name_of(&self, dir: Ino) -> Result<Option<Bytes>, NoMemory>
        ensures { IfOk result (λ name. name ≡ option_map bytes_of_text (host_name self.now dir)) }
    {
        match self.name_backward(dir)? {
            Some(backward) => Ok(Some(from_end(backward)?)),
            None => Ok(None),
        }
    }

    /// Whether the inode is there and the user has a right to it.
    pub fn may(&self, user: User, ino: Ino, right: Right) -> bool
        ensures { result ≡ may self.now user ino right }
    {
        match self.store.get(ino) {
            Some(inode) => inode.allows(user, right),
            None => false,
        }
    }

    /// The bytes of a file; `None` exactly where it is no file.
    pub fn file(&self, ino: Ino) -> Option<&[u8]>
        ensures { option_copied result ≡ option_and_then file_of (body self.now ino) }
    {
        self.store.get(ino)?.file()
    }

    /// The text of a link; `None` exactly where it is no link.
    pub fn link_text(&self, ino: Ino) -> Option<&[u8]>
        ensures { option_copied result ≡ option_and_then text_of (body self.now ino) }
    {
        self.store.get(ino)?.link_text()
    }

    /// Whether an inode is a directory that wasn't removed, so that names can be put into it.
    pub fn takes_names(&self, dir: Ino) -> bool
        ensures { result ≡ body_is takes_names self.now dir }
    {
        match self.store.get(dir) {
            Some(inode) => inode.takes_names(),
            None => false,
        }
    }

    /// Whether an inode is a directory with entries.
    pub fn is_filled(&self, dir: Ino) -> bool
        ensures { result ≡ body_is is_filled self.now dir }
    {
        match self.store.get(dir) {
            Some(inode) => inode.is_filled(),
            None => false,
        }
    }

    /// Whether an inode is a directory, as the process directory is.
    pub fn is_directory(&self, ino: Ino) -> bool
        ensures { result ≡ body_is is_directory self.now ino }
    {
        match self.store.get(ino) {
            Some(inode) => inode.is_directory(),
            None => false,
        }
    }

    /// Whether an inode is a file.
    pub fn is_file(&self, ino: Ino) -> bool
        ensures { result ≡ body_is is_file self.now ino }
    {
        match self.store.get(ino) {
            Some(inode) => inode.is_file(),
            None => false,
        }
    }

    /// Whether an inode is a file or a link, which may have several names.
    pub fn may_be_linked(&self, ino: Ino) -> bool
        ensures { result ≡ body_is may_be_linked self.now ino }
    {
        match self.store.get(ino) {
            Some(inode) => inode.may_be_linked(),
            None => false,
        }
    }

    /// How often an inode is held; 0 where it isn't there.
    pub fn holds(&self, ino: Ino) -> u32
        ensures { result ≡ option_map_or (λ x. x.holds) (inode self.now ino) 0 }
    {
        match self.store.get(ino) {
            Some(inode) => inode.holds(),
            None => 0,
        }
    }

    /// Whether two trees have the same nodes at the same numbers, with the serials of their entries;
    /// holds and next numbers aside.
    pub fn same(&self, other: &Tree) -> bool
        ensures { IsTrue result ↔ (nodes self.now ≡ nodes other.now) }
    {
        self.store.same(&other.store)
    }

    /// The number that the next inode takes.
    pub fn next_number(&self) -> Ino
        ensures { result ≡ self.now.next }
    {
        self.next
    }

    /// The serial that the next entry of a directory takes; 0 where there is none.
    pub fn next_serial(&self, dir: Ino) -> u64
        ensures { result ≡ next_serial self.now dir }
    {
        match self.store.get(dir) {
            Some(inode) => inode.next_serial(),
            None => 0,
        }
    }

    /// How many of a directory's entries are directories, the process directory among them.
    pub fn directories(&self, dir: Ino) -> u32
        ensures { result ≡ option_map_or (λ x. x.directories) (inode self.now dir) 0 }
    {
        match self.store.get(dir) {
            Some(inode) => inode.directories(),
            None => 0,
        }
    }

    /// Puts a new node under a free name in a directory, and gives its number, the next one.
    /// TooBig comes before Full.
    pub fn add(&mut self, dir: Ino, name: &[u8], node: Node, meta: Meta) -> Result<Ino, TreeRefusal>
        requires directory { body_is takes_names self.old dir ≡ true }
        requires well_formed { is_name name.now ≡ true }
        requires free { entry self.old dir name.now ≡ None }
        requires numbers { self.old.next + 1 < 2 ^ 32 }
        requires serials { next_serial self.old dir + 1 < 2 ^ 64 }
        ensures too_big { IsErrOf result TreeRefusal.TooBig ↔ IsTrue (is_too_big (body_of_new node)) }
        ensures full { IsErrOf result TreeRefusal.Full ↔ IsTrue (not (is_too_big (body_of_new node)) && has_no_room (length (bytes_of (body_of_new node))) self.old) }
        ensures number { IfOk result (λ ino. ino ≡ self.old.next) }
        ensures ok { OnOk result (self.new ≡ added dir name.now meta.mode meta.uid meta.gid (body_of_new node) self.old) }
        ensures err { OnErr result (self.new ≡ self.old) }
    {
        is_of_bytes(&node);
        let size = node.size();
        if node.is_too_big() {
            return Err(TreeRefusal::TooBig);
        }
        if self.has_no_room(size) {
            return Err(TreeRefusal::Full);
        }
        let ino = self.next;
        let is_dir = node.is_directory();
        let standing = Standing {
            inode: dir,
            serial: self.next_serial(dir),
        };
        let name = self.copy(name)?;
        let inode = Inode::new(self.alloc, node, meta, standing);
        self.store.put(dir, name, ino, inode, is_dir)?;
        self.next += 1;
        self.names += 1;
        self.bytes += size;
        Ok(ino)
    }

    /// Gives a file or a link another name, which is free.
    pub fn link(&mut self, dir: Ino, name: &[u8], file: Ino) -> Result<(), TreeRefusal>
        requires directory { body_is takes_names self.old dir ≡ true }
        requires well_formed { is_name name.now ≡ true }
        requires free { entry self.old dir name.now ≡ None }
        requires serials { next_serial self.old dir + 1 < 2 ^ 64 }
        requires file { body_is may_be_linked self.old file ≡ true }
        ensures full { IsErrOf result TreeRefusal.Full ↔ IsTrue (has_no_name_left self.old) }
        ensures never_too_big { ¬ IsErrOf result TreeRefusal.TooBig }
        ensures ok { OnOk result (self.new ≡ linked dir name.now file self.old) }
        ensures err { OnErr result (self.new ≡ self.old) }
    {
        if COUNT_LIMIT <= self.names {
            return Err(TreeRefusal::Full);
        }
        let name = self.copy(name)?;
        self.store.add_entry(dir, name, file, false)?;
        self.store.add_name(file);
        self.names += 1;
        Ok(())
    }

    /// Takes a name away, if there is one. Its inode is dropped if it has no other name and no hold; a
    /// directory that is held stays, and stands nowhere.
    pub fn remove(&mut self, dir: Ino, name: &[u8])
        requires empty { IfSome (entry self.old dir name.now) (λ ino. body_is is_filled self.old ino ≡ false) }
        ensures { self.new ≡ removed dir name.now self.old }
    {
        if let Some(ino) = self.entry(dir, name) {
            let is_dir = self.is_directory(ino);
            self.store.remove_entry(dir, name, is_dir);
            self.store.remove_name(ino);
            let freed = self.store.remove_if_unused(ino);
            self.names -= 1;
            self.bytes -= freed;
        }
    }

    /// Whether [`Tree::rename`] may move an entry so: it is there, and goes into a directory that
    /// wasn't removed and isn't at or below it, to a free name or in place of an entry of its kind
    /// without entries.
    pub fn is_lawful_move(&self, dir: Ino, name: &[u8], to: Ino, new: &[u8]) -> bool
        ensures { IsTrue result ↔ IsLawfulMove self.now dir name.now to new.now }
    {
        match self.entry(dir, name) {
            Some(ino) => {
                is_name(new)
                    && self.takes_names(to)
                    && !(self.is_directory(ino) && self.is_below(ino, to))
                    && self.may_replace(ino, self.entry(to, new))
            }
            None => false,
        }
    }

    /// Whether an inode may take the name of another, if there is one.
    fn may_replace(&self, ino: Ino, old: Option<Ino>) -> bool
        ensures { IsTrue result ↔ ((k : ℕ) → old ≡ Some k → k ≢ ino → (body_is is_directory self.now k ≡ body_is is_directory self.now ino) × (body_is is_filled self.now k ≡ false)) }
    {
        match old {
            Some(old) => {
                old == ino
                    || (self.is_directory(old) == self.is_directory(ino) && !self.is_filled(old))
            }
            None => true,
        }
    }

    /// Moves an entry, as rename(2) does: to a free name, or in place of an entry of its kind, whose
    /// inode loses that name. Where both are names of one inode nothing changes.
    pub fn rename(&mut self, dir: Ino, name: &[u8], to: Ino, new: &[u8]) -> Result<(), NoMemory>
        requires lawful { IsLawfulMove self.old dir name.now to new.now }
        requires serials { next_serial self.old to + 1 < 2 ^ 64 }
        ensures ok { OnOk result (self.new ≡ renamed dir name.now to new.now self.old) }
        ensures err { OnErr result (self.new ≡ self.old) }
    {
        match self.entry(dir, name) {
            Some(ino) => match self.entry(to, new) {
                Some(old) if old == ino => Ok(()),
                Some(old) => self.move_onto(dir, name, to, new, ino, old),
                None => self.move_to_free(dir, name, to, new, ino),
            },
            None => Ok(()),
        }
    }

    /// Moves an entry to a free name.
    fn move_to_free(
        &mut self,
        dir: Ino,
        name: &[u8],
        to: Ino,
        new: &[u8],
        ino: Ino,
    ) -> Result<(), NoMemory>
        requires there { entry self.old dir name.now ≡ Some ino }
        requires takes { body_is takes_names self.old to ≡ true }
        requires well_formed { is_name new.now ≡ true }
        requires free { entry self.old to new.now ≡ None }
        requires aside { body_is is_directory self.old ino ≡ true → ¬ IsBelow self.old ino to }
        requires serials { next_serial self.old to + 1 < 2 ^ 64 }
        ensures ok { OnOk result (self.new ≡ moved dir name.now to new.now ino self.old) }
        ensures err { OnErr result (self.new ≡ self.old) }
    {
        let is_dir = self.is_directory(ino);
        let standing = Standing {
            inode: to,
            serial: self.next_serial(to),
        };
        // The new entry first: it alone wants memory.
        let copy = self.copy(new)?;
        self.store.add_entry(to, copy, ino, is_dir)?;
        self.store.remove_entry(dir, name, is_dir);
        self.store.stand(ino, standing);
        Ok(())
    }

    /// Moves an entry to the name of another, which is a directory without entries where the one that
    /// is moved is a directory, and none where it isn't. The inode that had the name loses it.
    fn move_onto(
        &mut self,
        dir: Ino,
        name: &[u8],
        to: Ino,
        new: &[u8],
        ino: Ino,
        old: Ino,
    ) -> Result<(), NoMemory>
        requires there { entry self.old dir name.now ≡ Some ino }
        requires takes { body_is takes_names self.old to ≡ true }
        requires well_formed { is_name new.now ≡ true }
        requires named { entry self.old to new.now ≡ Some old }
        requires apart { old ≢ ino }
        requires alike { body_is is_directory self.old old ≡ body_is is_directory self.old ino }
        requires empty { body_is is_filled self.old old ≡ false }
        requires aside { body_is is_directory self.old ino ≡ true → ¬ IsBelow self.old ino to }
        requires serials { next_serial self.old to + 1 < 2 ^ 64 }
        ensures ok { OnOk result (self.new ≡ moved dir name.now to new.now ino (unlinked to new.now old self.old)) }
        ensures err { OnErr result (self.new ≡ self.old) }
    {
        let is_dir = self.is_directory(ino);
        let standing = Standing {
            inode: to,
            serial: self.next_serial(to),
        };
        // The new entry first: it alone wants memory.
        self.store.replace_entry(to, new, ino, is_dir)?;
        self.store.remove_name(old);
        let freed = self.store.remove_if_unused(old);
        self.store.remove_entry(dir, name, is_dir);
        self.store.stand(ino, standing);
        self.names -= 1;
        self.bytes -= freed;
        Ok(())
    }

    /// Cuts a file at a size, or fills it with zeros up to it. TooBig comes before Full.
    pub fn set_size(&mut self, file: Ino, new: u64) -> Result<(), TreeRefusal>
        requires { body_is is_file self.old file ≡ true }
        ensures too_big { IsErrOf result TreeRefusal.TooBig ↔ IsTrue (is_past_file new) }
        ensures full { IsErrOf result TreeRefusal.Full ↔ IsTrue (not (is_past_file new) && has_no_room_for file new self.old) }
        ensures ok { OnOk result (self.new ≡ bytes_set file (sized new) self.old) }
        ensures err { OnErr result (self.new ≡ self.old) }
    {
        let bytes = self.room_for(file, new)?;
        self.store.resize(file, new as usize)?;
        self.bytes = bytes;
        Ok(())
    }

    /// Writes bytes into a file from a place on, with zeros in a gap before them; no bytes change
    /// nothing. TooBig comes before Full.
    pub fn write_file(&mut self, file: Ino, at: u64, b: &[u8]) -> Result<(), TreeRefusal>
        requires { body_is is_file self.old file ≡ true }
        ensures too_big { IsErrOf result TreeRefusal.TooBig ↔ IsTrue (is_past_file (size_written at (length b.now) (size self.old file))) }
        ensures full { IsErrOf result TreeRefusal.Full ↔ IsTrue (not (is_past_file (size_written at (length b.now) (size self.old file))) && has_no_room_for file (size_written at (length b.now) (size self.old file)) self.old) }
        ensures ok { OnOk result (self.new ≡ bytes_set file (overwritten at b.now) self.old) }
        ensures err { OnErr result (self.new ≡ self.old) }
    {
        let new = size_written(at, b.len(), self.size(file));
        let bytes = self.room_for(file, new)?;
        self.store.overwrite(file, at as usize, b)?;
        self.bytes = bytes;
        Ok(())
    }

    /// Holds an inode once more: while it is held it stays, also without a name.
    pub fn hold(&mut self, ino: Ino)
        requires there { IsSome (inode self.old ino) }
        requires holds { option_map_or (λ x. x.holds) (inode self.old ino) 0 + 1 < 2 ^ 32 }
        ensures { self.new ≡ held ino self.old }
    {
        self.store.hold(ino);
    }

    /// Takes one hold off an inode, which is dropped if it has no name and no other hold.
    pub fn release(&mut self, ino: Ino)
        requires { 0 < option_map_or (λ x. x.holds) (inode self.old ino) 0 }
        ensures { self.new ≡ released ino self.old }
    {
        self.store.release(ino);
        let freed = self.store.remove_if_unused(ino);
        self.bytes -= freed;
    }

    /// Gives an inode another mode.
    pub fn set_mode(&mut self, ino: Ino, mode: u16)
        requires { IsSome (inode self.old ino) }
        ensures { self.new ≡ mode_set ino mode self.old }
    {
        self.store.set_mode(ino, mode);
    }

    /// Gives an inode another owner and group.
    pub fn set_owner(&mut self, ino: Ino, uid: u32, gid: u32)
        requires { IsSome (inode self.old ino) }
        ensures { self.new ≡ owner_set ino uid gid self.old }
    {
        self.store.set_owner(ino, uid, gid);
    }

    /// The name under which a directory stands, and the inode above it.
    fn step_up(&self, dir: Ino) -> Option<(&[u8], Ino)>
        ensures { option_map (λ p. (p.0.now, p.1)) result ≡ step_up self.now dir }
    {
        let standing = self.store.get(dir)?.standing()?;
        match self.store.get(standing.inode)?.at(standing.serial) {
            Some((name, _ino)) => Some((name, standing.inode)),
            None => None,
        }
    }

    /// The host name of a directory, read from its end; nothing for the root.
    fn name_backward(&self, dir: Ino) -> Result<Option<Vec<u8>>, NoMemory>
        ensures { IfOk result (λ name. option_map (λ b. b.items) name ≡ option_map (λ text. reverse (below_root text)) (host_name self.now dir)) }
    {
        // No directory is met twice on the way up, so it has fewer steps than numbers were drawn.
        let mut backward = Vec::new(self.alloc);
        let mut at = dir;
        for _step in 0..self.next {
            if at == ROOT {
                return Ok(Some(backward));
            }
            match self.step_up(at) {
                Some((name, up)) => {
                    append_backward(&mut backward, name)?;
                    at = up;
                }
                None => return Ok(None),
            }
        }
        Ok(None)
    }

    /// Whether there is no room for one inode more, with a name and `size` bytes.
    fn has_no_room(&self, size: u64) -> bool
        requires { size < 2 ^ 63 }
        ensures { result ≡ has_no_room size self.now }
    {
        COUNT_LIMIT as usize <= self.store.len()
            || COUNT_LIMIT <= self.names
            || BYTE_LIMIT < self.bytes + size
    }

    /// How many bytes an inode has.
    fn size(&self, ino: Ino) -> u64
        ensures { result ≡ size self.now ino }
    {
        match self.store.get(ino) {
            Some(inode) => inode.size(),
            None => 0,
        }
    }

    /// How many bytes there are in all with `new` bytes in a file, if that passes no limit.
    fn room_for(&self, file: Ino, new: u64) -> Result<u64, TreeRefusal>
        ensures too_big { IsErrOf result TreeRefusal.TooBig ↔ IsTrue (is_past_file new) }
        ensures full { IsErrOf result TreeRefusal.Full ↔ IsTrue (not (is_past_file new) && has_no_room_for file new self.now) }
        ensures memory { ¬ IsErrOf result TreeRefusal.NoMemory }
        ensures ok { IfOk result (λ bytes. bytes ≡ self.now.bytes - size self.now file + new) }
        ensures limits { IfOk result (λ bytes. (new ≤ file_limit) × (bytes ≤ byte_limit)) }
    {
        if (FILE_LIMIT as u64) < new {
            return Err(TreeRefusal::TooBig);
        }
        let bytes = self.bytes - self.size(file) + new;
        if BYTE_LIMIT < bytes {
            return Err(TreeRefusal::Full);
        }
        Ok(bytes)
    }

    /// A copy of a name.
    fn copy(&self, name: &[u8]) -> Result<Vec<u8>, NoMemory>
        ensures { IfOk result (λ copy. copy.items ≡ name.now) }
    {
        Ok(name.to_vec(self.alloc)?)
    }
}

/// That the bytes of a new node are below 256.
fn is_of_bytes(node: &Node)
    ensures { IsOfBytes (body_of_new node.now) }
{
    if let Node::File(bytes) | Node::Link(bytes) = node {
        are_bytes(bytes.as_slice());
    }
}

/// That bytes are below 256, which a proof is told of a slice alone.
fn are_bytes(bytes: &[u8])
    ensures { AreBytes bytes.now }
{}

/// How many bytes a file has after `count` of them were written at a place, where that is no more
/// than a file may have; else any number that is more.
fn size_written(at: u64, count: usize, size: u64) -> u64
    ensures past { is_past_file result ≡ is_past_file (size_written at count size) }
    ensures within { result ≤ file_limit → result ≡ size_written at count size }
{
    if count == 0 {
        size
    } else {
        at.saturating_add(count as u64).max(size)
    }
}
