//! The host name of where a walk stands. It is kept as its bytes below the root: a slash and a name for
//! each step down, and none for the root itself.
ghost use Rattle.std.specs.Prelude.{◌≡◌, ◌≢◌, ℕ, ◌+◌, ◌<◌, ◌≤◌, ◌^◌, ◌∷◌, [], ◌++◌, List, Option, length, drop, IfOk, IfSome, OnOk};
ghost use Rattle.std.specs.List.{All};
ghost use Rattle.std.specs.Option.{option_map};
ghost use Rattle.std.specs.Fmt.{decimal};
ghost use Rattle.kr_view.specs.kr_tree.pr_base.Paths.{slash, below_root, text_of, AreNames};
ghost use Rattle.kr_view.specs.kr_tree.Names.{host_name, process_names};
ghost use Rattle.kr_view.specs.Names.{below};
ghost use Rattle.kr_walk.specs.HostNames.{NamesHangTogether};
ghost use Rattle.kr_view.specs.Reach.{text_length, bytes_below};

use kr_view::below::kr_tree::laws::{directories_have_host_names, trees_are_kept};
use kr_view::below::kr_tree::{Ino, ProcAt, Tree};
use kr_view::below::pr_base::{Bytes, NoMemory};

/// How many bytes a host name has below the root, if there is one.
pub(crate) fn bytes_of(name: &Option<Bytes>) -> Option<u64>
    ensures length { result ≡ option_map length name.now }
    ensures small { IfSome result (λ n. n < 2 ^ 63) }
{
    match name {
        Some(bytes) => Some(bytes.as_slice().len() as u64),
        None => None,
    }
}

/// The length of a host name that has `bytes` bytes below the root. The root's is 1.
pub(crate) fn length_of(bytes: Option<u64>) -> Option<u64>
    ensures { (text : Option (List (List ℕ))) → bytes ≡ option_map bytes_below text → result ≡ option_map text_length text }
{
    match bytes {
        Some(bytes) => Some(bytes.max(1)),
        None => None,
    }
}

/// The length of the host name of an entry, in a directory whose own has `bytes` bytes below the root.
pub(crate) fn entry_length(bytes: Option<u64>, name: &[u8]) -> Option<u64>
    requires { IfSome bytes (λ n. n + 1 + length name.now < 2 ^ 64) }
    ensures { (text : Option (List (List ℕ))) → bytes ≡ option_map bytes_below text → result ≡ option_map text_length (below name.now text) }
{
    match bytes {
        Some(bytes) => Some(bytes + 1 + name.len() as u64),
        None => None,
    }
}

/// Puts an entry's name behind that of its directory.
fn append(directory: &mut Bytes, name: &[u8]) -> Result<(), NoMemory>
    ensures { OnOk result (directory.new ≡ directory.old ++ slash ∷ name.now) }
{
    directory.append(b"/")?;
    directory.append(name)
}

/// The host name of the directory above: the bytes in front of the last slash. The root stays.
fn cut(name: Bytes) -> Bytes
    ensures { (names : List (List ℕ)) → AreNames names → name ≡ below_root names → result ≡ below_root (drop 1 names) }
{
    let mut bytes = name.into_vec();
    let end = last_slash(bytes.as_slice());
    bytes.truncate(end);
    Bytes::from(bytes)
}

/// How many bytes the host name of the directory above has.
pub(crate) fn bytes_above(name: &Option<Bytes>) -> Option<u64>
    ensures { (text : Option (List (List ℕ))) →
        IfSome text AreNames → name.now ≡ option_map below_root text → result ≡ option_map bytes_below (option_map (drop 1) text) }
{
    match name {
        Some(bytes) => Some(last_slash(bytes.as_slice()) as u64),
        None => None,
    }
}

/// The host name of the directory above, where there is one.
pub(crate) fn cut_name(name: Option<Bytes>) -> Option<Bytes>
    ensures { (text : Option (List (List ℕ))) →
        IfSome text AreNames → name ≡ option_map below_root text → result ≡ option_map below_root (option_map (drop 1) text) }
{
    match name {
        Some(bytes) => Some(cut(bytes)),
        None => None,
    }
}

/// An entry's host name, where its directory has one.
pub(crate) fn entered(directory: Option<Bytes>, name: &[u8]) -> Result<Option<Bytes>, NoMemory>
    ensures { IfOk result (λ entry. (text : Option (List (List ℕ))) →
        directory ≡ option_map below_root text → entry ≡ option_map below_root (below name.now text)) }
{
    match directory {
        Some(mut bytes) => {
            append(&mut bytes, name)?;
            Ok(Some(bytes))
        }
        None => Ok(None),
    }
}

/// Where the last slash of a path stands; 0 where it has none.
pub(crate) fn last_slash(path: &[u8]) -> usize
    ensures within { result ≤ length path.now }
    ensures last { (front name : List ℕ) → path.now ≡ front ++ slash ∷ name → All (λ b. b ≢ slash) name → result ≡ length front }
{
    let mut end = path.len();
    while 0 < end {
        end -= 1;
        if path[end] == b'/' {
            return end;
        }
    }
    0
}

/// How the host names of directories hang together.
pub(crate) fn names_hang_together(tree: &Tree)
    ensures { NamesHangTogether tree.now }
{
    trees_are_kept(tree);
    directories_have_host_names(tree);
}

/// The host name of a directory by the tree.
pub(crate) fn directory_name(tree: &Tree, ino: Ino) -> Result<Option<Bytes>, NoMemory>
    ensures { IfOk result (λ name. name ≡ option_map below_root (host_name tree.now ino)) }
{
    directories_have_host_names(tree);
    match tree.name_of(ino)? {
        Some(text) => Ok(Some(below_the_root(text))),
        None => Ok(None),
    }
}

/// The bytes of a host name without the root's slash.
pub(crate) fn below_the_root(text: Bytes) -> Bytes
    ensures { (names : List (List ℕ)) → AreNames names → text ≡ text_of names → result ≡ below_root names }
{
    if text.len() == 1 {
        let mut root = text;
        root.clear();
        root
    } else {
        text
    }
}

/// How many bytes the names of what stands in the process directory have, a slash in front of each.
pub(crate) fn process_bytes(at: ProcAt) -> u64
    ensures exact { result ≡ bytes_below (process_names at) }
    ensures small { result ≤ 64 }
{
    match at {
        ProcAt::SelfLink => 5,
        ProcAt::Dir(pid) => 1 + digits(pid),
        ProcAt::Cwd(pid) => 5 + digits(pid),
        ProcAt::Root(pid) => 6 + digits(pid),
        ProcAt::Exe(pid) => 5 + digits(pid),
        ProcAt::FdDir(pid) => 4 + digits(pid),
        ProcAt::Fd(pid, fd) => 5 + digits(pid) + digits(fd),
    }
}

/// How many decimal digits a number has.
fn digits(number: u32) -> u64
    ensures exact { result ≡ length (decimal number) }
    ensures small { result ≤ 10 }
{
    let mut left = number;
    let mut count = 1;
    while 10 <= left {
        left /= 10;
        count += 1;
    }
    count
}
