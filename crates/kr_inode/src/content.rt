//! What an inode holds.
ghost use Rattle.std.specs.Prelude.{length, take, drop, replicate, ◌++◌, ◌≤◌, ◌≡◌, ◌+◌, ◌-◌, ◌^◌, ◌<◌, true, Some, None, OnOk, OnErr, IsSome, IsTrue, ◌↔◌};
ghost use Rattle.kr_inode.specs.Changes.{sized, overwritten};

use crate::entries::Entries;
use crate::node::{Ino, Node};
use crate::standing::Standing;
use pr_base::NoMemory;
use std::alloc::Global;

/// The content of a directory.
#[derive(Drop)]
pub struct DirContent {
    pub entries: Entries,
    /// Where it stands; a removed one stands nowhere.
    pub standing: Option<Standing>,
    /// How many of the entries are directories.
    pub directories: u32,
}

/// The content of an inode, by its kind.
#[derive(Drop)]
pub enum Content {
    Dir(DirContent),
    File(Vec<u8>),
    Link(Vec<u8>),
    Proc(Option<Standing>),
}

impl DirContent {
    ghost use Rattle.kr_inode.specs.Inode.{entry_named};
    ghost use Rattle.kr_inode.specs.Names.{is_name};
    ghost use Rattle.kr_inode.specs.Entries.{with_new, without};
    ghost use Rattle.kr_inode.specs.Changes.{counted};

    /// One more entry, which may be a directory.
    pub fn add(&mut self, name: Vec<u8>, inode: Ino, is_dir: bool) -> Result<(), NoMemory>
        requires well_formed { is_name name.items ≡ true }
        requires free { entry_named name.items self.old.entries.list ≡ None }
        requires serials { self.old.entries.next + 1 < 2 ^ 64 }
        requires directories { self.old.directories + 1 < 2 ^ 32 }
        ensures ok { OnOk result (self.new ≡ record { entries = with_new name.items inode self.old.entries; standing = self.old.standing; directories = self.old.directories + counted is_dir }) }
        ensures err { OnErr result (self.new ≡ self.old) }
    {
        self.entries.add(name, inode)?;
        self.directories += u32::from(is_dir);
        Ok(())
    }

    /// An entry for another inode in place of one of the same name. Both are directories or neither
    /// is, so that there are as many as before.
    pub fn replace(&mut self, name: &[u8], inode: Ino) -> Result<(), NoMemory>
        requires named { IsSome (entry_named name.now self.old.entries.list) }
        requires serials { self.old.entries.next + 1 < 2 ^ 64 }
        ensures ok { OnOk result (self.new ≡ record { entries = with_new name.now inode (without name.now self.old.entries); standing = self.old.standing; directories = self.old.directories }) }
        ensures err { OnErr result (self.new ≡ self.old) }
    {
        self.entries.replace(name, inode)
    }

    /// An entry taken away, which may be a directory.
    pub fn remove(&mut self, name: &[u8], is_dir: bool)
        ensures { self.new ≡ record { entries = without name.now self.old.entries; standing = self.old.standing; directories = self.old.directories - counted is_dir } }
    {
        self.entries.remove(name);
        self.directories = self.directories.saturating_sub(u32::from(is_dir));
    }
}

impl Content {
    ghost use Rattle.kr_inode.specs.Changes.{with_standing, with_bytes};
    ghost use Rattle.kr_inode.specs.Stored.{body_stored, next_serial_stored, directories_stored, body_of_new};

    /// The content of a new node, which stands somewhere if it is a directory.
    pub fn new(alloc: Global, node: Node, standing: Standing) -> Content
        ensures body { body_stored result ≡ with_standing (Some standing) (body_of_new node) }
        ensures serials { next_serial_stored result ≡ 3 }
        ensures directories { directories_stored result ≡ 0 }
    {
        match node {
            Node::Dir => Content::Dir(DirContent {
                entries: Entries::new(alloc),
                standing: Some(standing),
                directories: 0,
            }),
            Node::File(bytes) => Content::File(bytes.into_vec()),
            Node::Link(text) => Content::Link(text.into_vec()),
            Node::Proc => Content::Proc(Some(standing)),
        }
    }

    /// Whether both are of one kind and hold the same, a directory the same entries under the same
    /// serials at the same place.
    pub fn same(&self, other: &Content) -> bool
        ensures { IsTrue result ↔ (body_stored self.now ≡ body_stored other.now) }
    {
        match (self, other) {
            (Content::Dir(one), Content::Dir(two)) => {
                one.entries.same(&two.entries) && one.standing == two.standing
            }
            (Content::File(one), Content::File(two)) | (Content::Link(one), Content::Link(two)) => {
                one.as_slice() == two.as_slice()
            }
            (Content::Proc(one), Content::Proc(two)) => *one == *two,
            _ => false,
        }
    }

    /// Cuts the bytes of a file at a size, or fills them with zeros up to it. Where memory is wanting
    /// nothing changes.
    pub fn resize(&mut self, size: usize) -> Result<(), NoMemory>
        ensures ok { OnOk result (body_stored self.new ≡ with_bytes (sized size) (body_stored self.old)) }
        ensures err { OnErr result (body_stored self.new ≡ body_stored self.old) }
        ensures serials { next_serial_stored self.new ≡ next_serial_stored self.old }
        ensures directories { directories_stored self.new ≡ directories_stored self.old }
    {
        if let Content::File(bytes) = self {
            bytes.resize(size, 0)?;
        }
        Ok(())
    }

    /// Writes bytes into a file from a place on, with zeros in a gap before them. Where memory is
    /// wanting nothing changes.
    pub fn overwrite(&mut self, at: usize, b: &[u8]) -> Result<(), NoMemory>
        requires { 0 < length b.now → at + length b.now < 2 ^ 63 }
        ensures ok { OnOk result (body_stored self.new ≡ with_bytes (overwritten at b.now) (body_stored self.old)) }
        ensures err { OnErr result (body_stored self.new ≡ body_stored self.old) }
        ensures serials { next_serial_stored self.new ≡ next_serial_stored self.old }
        ensures directories { directories_stored self.new ≡ directories_stored self.old }
    {
        if let Content::File(bytes) = self {
            overwrite(bytes, at, b)?;
        }
        Ok(())
    }
}

/// Writes bytes from a place on, with zeros in a gap before them.
fn overwrite(bytes: &mut Vec<u8>, at: usize, b: &[u8]) -> Result<(), NoMemory>
    requires { 0 < length b.now → at + length b.now < 2 ^ 63 }
    ensures ok { OnOk result (bytes.new.items ≡ overwritten at b.now bytes.old.items) }
    ensures err { OnErr result (bytes.new.items ≡ bytes.old.items) }
{
    if b.is_empty() {
        return Ok(());
    }
    grow(bytes, at + b.len())?;
    put(bytes, at, b);
    Ok(())
}

/// Fills bytes up with zeros to a length, if there are fewer.
fn grow(bytes: &mut Vec<u8>, end: usize) -> Result<(), NoMemory>
    ensures ok { OnOk result (bytes.new.items ≡ bytes.old.items ++ replicate (end - length bytes.old.items) 0) }
    ensures err { OnErr result (bytes.new.items ≡ bytes.old.items) }
{
    if bytes.len() < end {
        bytes.resize(end, 0)?;
    }
    Ok(())
}

/// Writes bytes over those from a place on.
fn put(bytes: &mut Vec<u8>, at: usize, b: &[u8])
    requires { at + length b.now ≤ length bytes.old.items }
    ensures { bytes.new.items ≡ take at bytes.old.items ++ b.now ++ drop (at + length b.now) bytes.old.items }
{
    put_slice(bytes.as_mut_slice(), at, b);
}

/// Writes bytes over those of a slice from a place on.
fn put_slice(bytes: &mut [u8], at: usize, b: &[u8])
    requires { at + length b.now ≤ length bytes.old }
    ensures { bytes.new ≡ take at bytes.old ++ b.now ++ drop (at + length b.now) bytes.old }
{
    bytes[at..at + b.len()].copy_from_slice(b);
}
