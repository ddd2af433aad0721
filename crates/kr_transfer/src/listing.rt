//! Entries of directories, as getdents64(2) tells them.
ghost use Rattle.std.specs.Prelude.{◌≡◌, ◌≤◌, List, length, map as map_list, IfOk, IfSome};
ghost use Rattle.std.specs.Option.{option_map, option_map_or};
ghost use Rattle.kr_seen.specs.kr_calls.DirectoryEntries.{record_length};
ghost use Rattle.kr_seen.specs.kr_tree.Tree.{Body, entries};
ghost use Rattle.kr_seen.specs.kr_inode.Stored.{kind_of};
ghost use Rattle.kr_seen.specs.kr_procfs.Objects.{HasSmallNumbers};
ghost use Rattle.kr_seen.specs.kr_model.DirectoryRows as model;
ghost use Rattle.kr_seen.specs.kr_model.DirectoryRows.{dt_reg, kind_of_body, kind_of_process, listed_entry, listed_process, of_descriptors, of_process, of_processes, or_zero, with_dots};
ghost use Rattle.kr_seen.specs.kr_model.Known.{known, known_node};
ghost use Rattle.kr_seen.specs.kr_model.State.{image_layout};
ghost use Rattle.kr_seen.specs.kr_ops.Meaning.{meaning};
ghost use Rattle.kr_seen.specs.kr_ops.Sound.{IsOfView, IsSound};
ghost use Rattle.kr_transfer.specs.Listing.{first_behind, or_else, told_entry};

use crate::moving::allocator_of;
use kr_seen::below::{
    Bytes, DESCRIPTORS, Host, Ino, Kind, NoMemory, ProcAt, State, dirent_bytes, proc_inode,
    proc_name, proc_serial,
};
use std::alloc::Global;

/// The kinds of entries.
const DIRECTORY: u8 = 4;

const FILE: u8 = 8;

const LINK: u8 = 10;

/// The bytes of an entry before its name.
const HEAD_SIZE: usize = 19;

/// An entry of a directory.
#[derive(Drop)]
pub struct Listed {
    /// Its place among the entries of its directory.
    pub serial: u64,
    pub inode: u64,
    pub kind: u8,
    pub name: Bytes,
}

/// The size of a buffer, 0 where it is negative.
pub fn or_zero(n: i32) -> u32
    ensures { result ≡ or_zero n }
{
    match u32::try_from(n) {
        Ok(n) => n,
        Err(_) => 0,
    }
}

/// How many bytes an entry takes.
pub fn record_length(name: &[u8]) -> usize
    requires { length name.now ≤ 255 }
    ensures { result ≡ record_length name.now }
{
    (HEAD_SIZE + name.len() + 1).div_ceil(8) * 8
}

/// The kind of a node in an entry.
fn kind_number(kind: Kind) -> u8
    ensures { (b : Body) → kind ≡ kind_of b → result ≡ kind_of_body b }
{
    match kind {
        Kind::Dir => DIRECTORY,
        Kind::File => FILE,
        Kind::Link => LINK,
        Kind::Proc => DIRECTORY,
    }
}

/// The entry `.` or `..` behind a place, if one of them is.
pub fn dots(alloc: Global, here: u64, above: u64, after: u64) -> Result<Option<Listed>, NoMemory>
    ensures entry { IfOk result (λ dot. (entries : List model.Listed) → first_behind after (with_dots here above entries) ≡ or_else (option_map told_entry dot) (first_behind after entries)) }
    ensures short { IfOk result (λ dot. IfSome dot (λ e. length e.name ≤ 255)) }
{
    let kind = DIRECTORY;
    if after == 0 {
        let name = Bytes::copy(alloc, b".")?;
        return Ok(Some(Listed {
            serial: 1,
            inode: here,
            kind,
            name,
        }));
    }
    if after == 1 {
        let name = Bytes::copy(alloc, b"..")?;
        return Ok(Some(Listed {
            serial: 2,
            inode: above,
            kind,
            name,
        }));
    }
    Ok(None)
}

/// The kind of an inode in an entry.
fn kind_at<T: Copy, const M: u8>(state: &State<T, M>, pid: u32, ino: Ino) -> u8
    ensures { result ≡ option_map_or (λ n. kind_of_body n.body) (known_node (known image_layout pid (meaning state.now)) ino) dt_reg }
{
    match state.tree.kind(ino) {
        Some(kind) => kind_number(kind),
        None => FILE,
    }
}

/// The first entry of a directory of the tree behind a place, dots apart.
pub fn node_entry<T: Copy, const M: u8>(
    state: &State<T, M>,
    pid: u32,
    dir: Ino,
    after: u64,
) -> Result<Option<Listed>, NoMemory>
    requires { IsOfView state.now }
    ensures entry { IfOk result (λ next. option_map told_entry next ≡ first_behind after (map_list (listed_entry (known image_layout pid (meaning state.now))) (entries state.now.tree dir))) }
    ensures short { IfOk result (λ next. IfSome next (λ e. length e.name ≤ 255)) }
{
    let tree = &state.tree;
    let Some((serial, name, inode)) = tree.next_entry(dir, after) else {
        return Ok(None);
    };
    let kind = kind_at(state, pid, inode);
    let name = Bytes::copy(allocator_of(state), name)?;
    let inode = u64::from(inode);
    Ok(Some(Listed {
        serial,
        inode,
        kind,
        name,
    }))
}

/// An object of the process directory as an entry.
pub fn process_entry(alloc: Global, at: ProcAt, kind: u8) -> Result<Listed, NoMemory>
    requires kind { kind ≡ kind_of_process at }
    requires small { HasSmallNumbers at }
    ensures entry { IfOk result (λ e. told_entry e ≡ listed_process at) }
    ensures short { IfOk result (λ e. length e.name ≤ 255) }
{
    let name = proc_name(alloc, at)?;
    Ok(Listed {
        serial: proc_serial(at),
        inode: proc_inode(at),
        kind,
        name,
    })
}

/// The first entry of a process's directory behind a place, dots apart.
pub fn link_entry(alloc: Global, pid: u32, after: u64) -> Result<Option<Listed>, NoMemory>
    ensures entry { IfOk result (λ next. option_map told_entry next ≡ first_behind after (of_process pid)) }
    ensures short { IfOk result (λ next. IfSome next (λ e. length e.name ≤ 255)) }
{
    let entry = if after < 3 {
        process_entry(alloc, ProcAt::Cwd(pid), LINK)?
    } else if after < 4 {
        process_entry(alloc, ProcAt::Root(pid), LINK)?
    } else if after < 5 {
        process_entry(alloc, ProcAt::Exe(pid), LINK)?
    } else if after < 6 {
        process_entry(alloc, ProcAt::FdDir(pid), DIRECTORY)?
    } else {
        return Ok(None);
    };
    Ok(Some(entry))
}

/// The first entry of the process directory behind a place, dots apart.
pub fn directory_entry<T: Copy, const M: u8>(
    state: &State<T, M>,
    pid: u32,
    after: u64,
) -> Result<Option<Listed>, NoMemory>
    ensures entry { IfOk result (λ next. option_map told_entry next ≡ first_behind after (of_processes (known image_layout pid (meaning state.now)))) }
    ensures short { IfOk result (λ next. IfSome next (λ e. length e.name ≤ 255)) }
{
    let alloc = allocator_of(state);
    if after < 3 {
        return Ok(Some(process_entry(alloc, ProcAt::SelfLink, LINK)?));
    }
    for k in 0..state.living.len() {
        let number = state.living[k].pid;
        if after < proc_serial(ProcAt::Dir(number)) {
            return Ok(Some(process_entry(alloc, ProcAt::Dir(number), DIRECTORY)?));
        }
    }
    Ok(None)
}

/// The first entry behind a place of the directory of a process's descriptors, dots apart. Descriptor `n` has the serial 3 + `n`.
pub fn descriptor_entry<T: Copy, const M: u8>(
    state: &State<T, M>,
    pid: u32,
    of: u32,
    after: u64,
) -> Result<Option<Listed>, NoMemory>
    requires { IsSound state.now }
    ensures entry { IfOk result (λ next. option_map told_entry next ≡ first_behind after (of_descriptors (known image_layout pid (meaning state.now)) of)) }
    ensures short { IfOk result (λ next. IfSome next (λ e. length e.name ≤ 255)) }
{
    let from = after.saturating_sub(2).min(DESCRIPTORS as u64) as u32;
    for fd in from..DESCRIPTORS {
        let Some(_flag) = state.cloexec(of, fd) else {
            continue;
        };
        let at = ProcAt::Fd(of, fd);
        return Ok(Some(process_entry(allocator_of(state), at, LINK)?));
    }
    Ok(None)
}
