//! A watcher that notes what it is told, and changes a few calls.
ghost use Rattle.std.specs.Prelude.{◌≡◌};
ghost use Rattle.kr_loose.specs.kr_stops.Stopped.{IsEdited, IsThere};

use kr_loose::below::{Bytes, NoMemory, Stops, StoreFault, Tracee, Use};
use std::alloc::Global;

/// Registers by their numbers: the stack pointer, the first two arguments, the first of which is the answer, and the number of the call.
const SP: u8 = 2;

const A0: u8 = 10;

const A1: u8 = 11;

const A7: u8 = 17;

/// Numbers of calls; no call has the last two.
const OPENAT: u64 = 56;

const GETPID: u64 = 172;

const GETPPID: u64 = 173;

const NOTES: u64 = 1000;

const CANCELLED: u64 = u64::MAX;

/// What it puts in the place of the path `/f`.
const SWAPPED: &[u8] = b"/e\0";

/// It notes for each first stop `e` and the process, for each second one `x`, the process, `/` where the call's path led to the root, and
/// behind `=` the inode to which it led, for a child `b` with its parent and itself, and for an end `g`. It cancels getpid and answers 77,
/// makes getppid a getpid, puts `/e` on the shelf where `/f` is opened, and shows its notes at the address in a1 to a call of a number of its
/// own.
#[derive(Drop)]
pub struct Noting {
    alloc: Global,
    notes: Bytes,
    /// Where the path of the last openat stood.
    path: u64,
}

impl Noting {
    pub fn new(alloc: Global) -> Noting {
        Noting {
            alloc,
            notes: Bytes::new(alloc),
            path: 0,
        }
    }

    fn note(&mut self, kind: &str, pid: u32, rest: &str) -> Result<(), NoMemory> {
        let note = format!(in self.alloc; "{kind}{pid}{rest} ")?;
        self.notes.append(note.as_bytes())
    }

    /// Puts another path on the shelf, where `/f` is to be opened.
    fn swap_path<T: Tracee>(&mut self, t: &mut T) -> Result<(), NoMemory>
        requires { IsThere (T.stopped t.old) }
        ensures edits { IsEdited (T.stopped t.old) (T.stopped t.new) }
        ensures rest { T.around t.new ≡ T.around t.old }
    {
        self.path = t.reg(A1);
        let mut text = [0; 3];
        match t.peek(self.path, &mut text, Use::Read) {
            Ok(()) => {}
            Err(_fault) => return Ok(()),
        }
        if text.as_slice() != b"/f\0".as_slice() {
            return Ok(());
        }
        let shelf = t.reg(SP).wrapping_sub(8);
        match t.poke(shelf, SWAPPED) {
            Ok(()) => {
                t.set_reg(A1, shelf);
                Ok(())
            }
            Err(StoreFault::BadAddress) => Ok(()),
            Err(StoreFault::NoMemory) => Err(NoMemory),
        }
    }

    /// Notes a second stop of a process, and where its call's path led: whether to the root, and to which inode.
    fn note_exit(&mut self, pid: u32, at_root: bool, target: Option<u64>) -> Result<(), NoMemory> {
        let root = if at_root { "/" } else { "" };
        match target {
            Some(ino) => {
                let rest = format!(in self.alloc; "{root}={ino}")?;
                self.note("x", pid, rest.as_str())
            }
            None => self.note("x", pid, root),
        }
    }

    /// Shows the notes, and answers how many bytes they have.
    fn show<T: Tracee>(&mut self, t: &mut T) -> Result<(), NoMemory>
        requires { IsThere (T.stopped t.old) }
        ensures edits { IsEdited (T.stopped t.old) (T.stopped t.new) }
        ensures rest { T.around t.new ≡ T.around t.old }
    {
        match t.poke(t.reg(A1), self.notes.as_slice()) {
            Ok(()) => {
                t.set_reg(A0, self.notes.len() as u64);
                Ok(())
            }
            Err(StoreFault::BadAddress) => Ok(()),
            Err(StoreFault::NoMemory) => Err(NoMemory),
        }
    }
}

impl Stops for Noting {
    ghost use Rattle.std.specs.Prelude.{false};

    ghost enters = { λ x t y u. Unit {0} };

    ghost exits = { λ x t y u. Unit {0} };

    ghost bears = { λ x parent child y. Unit {0} };

    ghost forgets = { λ x pid y. Unit {0} };

    ghost asks = { λ x t. false };

    ghost agrees = { λ x t user. Unit {0} };

    ghost is_free = { λ x pid. Unit {0} };

    fn entry<T: Tracee>(&mut self, t: &mut T) -> Result<(), NoMemory> {
        self.note("e", t.pid(), "")?;
        match t.reg(A7) {
            GETPID => t.set_reg(A7, CANCELLED),
            GETPPID => t.set_reg(A7, GETPID),
            OPENAT => self.swap_path(t)?,
            _ => {}
        }
        Ok(())
    }

    fn exit<T: Tracee>(&mut self, t: &mut T) -> Result<(), NoMemory> {
        self.note_exit(t.pid(), t.at_root(), t.target())?;
        match t.reg(A7) {
            CANCELLED => {
                t.set_reg(A7, GETPID);
                t.set_reg(A0, 77);
            }
            OPENAT => t.set_reg(A1, self.path),
            NOTES => self.show(t)?,
            _ => {}
        }
        Ok(())
    }

    fn born(&mut self, parent: u32, child: u32) -> Result<(), NoMemory> {
        let both = format!(in self.alloc; "-{child}")?;
        self.note("b", parent, both.as_str())
    }

    fn gone(&mut self, pid: u32) {
        // A note that finds no memory is missing.
        let _noted = self.note("g", pid, "");
    }

    ghost free_agrees = { λ x pid free t user. tt };

    ghost lasts_with_shape = { λ x t u user sound shape before. tt };
}
