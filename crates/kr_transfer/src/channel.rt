//! What calls ask of an open file.
ghost use Rattle.std.specs.Prelude.{◌≡◌, ◌&&◌};
ghost use Rattle.kr_seen.specs.kr_model.FileRows.{is_dir, is_file_open};
ghost use Rattle.kr_seen.specs.kr_model.Known.{known};
ghost use Rattle.kr_seen.specs.kr_model.State.{image_layout};
ghost use Rattle.kr_seen.specs.kr_ops.Meaning.{meaning};
ghost use Rattle.kr_seen.specs.kr_ops.Sound.{IsSound};
ghost use Rattle.kr_transfer.specs.Channels.{channel_of, inode_under};

use kr_seen::below::{Host, Ino, State, What};

/// An open file under a descriptor, without its mount and the entry that it remembers.
#[derive(Clone, Copy)]
pub struct Channel {
    pub fd: u32,
    /// The file or directory; a pipe and the console have none.
    pub host: Option<Host>,
    pub what: What,
    pub read: bool,
    pub write: bool,
    pub append: bool,
    pub at: u64,
}

/// What is open under a descriptor of a process, `None` exactly where it isn't open.
pub fn channel_of<T: Copy, const M: u8>(state: &State<T, M>, pid: u32, fd: i32) -> Option<Channel>
    requires { IsSound state.now }
    ensures { result ≡ channel_of (known image_layout pid (meaning state.now)) fd }
{
    let Ok(fd) = u32::try_from(fd) else {
        return None;
    };
    let opened = state.opened(pid, fd)?;
    let host = match opened.place {
        Some(place) => Some(place.host),
        None => None,
    };
    Some(Channel {
        fd,
        host,
        what: opened.what,
        read: opened.read,
        write: opened.write,
        append: opened.append,
        at: opened.at,
    })
}

/// Whether a kind is that of a file.
fn is_file(what: What) -> bool
    ensures { result ≡ is_file_open what }
{
    match what {
        What::File => true,
        What::Dir | What::In | What::Out | What::Err | What::PipeRead(_) | What::PipeWrite(_) =>
            false,
    }
}

/// Whether it is a file that is open for writing.
pub(crate) fn is_writable_file(channel: Channel) -> bool
    ensures { result ≡ (is_file_open channel.what && channel.write) }
{
    is_file(channel.what) && channel.write
}

/// Whether a kind is that of a directory.
pub(crate) fn is_directory(what: What) -> bool
    ensures { result ≡ is_dir what }
{
    match what {
        What::Dir => true,
        What::File | What::In | What::Out | What::Err | What::PipeRead(_) | What::PipeWrite(_) =>
            false,
    }
}

/// The inode of what is open, 0 where it has none.
pub fn inode_of(channel: Channel) -> Ino
    ensures { result ≡ inode_under channel.host }
{
    match channel.host {
        Some(Host::Node(ino)) => ino,
        Some(Host::Proc(ino, _)) => ino,
        None => 0,
    }
}
