//! Whether others altered the tree while a call was begun, by what is counted.
ghost use Rattle.std.specs.Prelude.{◌≡◌, ◌&&◌, not, true, [], OnOk};
ghost use Rattle.std.specs.List.{find};
ghost use Rattle.std.specs.Option.{option_copied};
ghost use Rattle.kr_loose.specs.Judging.{counted_after, counted_at, counts_of, differs, is_altered, is_counted, uncounted};

use kr_core::below::NoMemory;
use std::alloc::Global;

/// How often the shape of the tree was altered, and the bytes of files.
#[derive(Clone, Copy)]
pub(crate) struct Counts {
    pub shape: u64,
    pub bytes: u64,
}

/// What was counted where the call of a process was begun, or where it came to wait last.
#[derive(Clone, Copy)]
pub(crate) struct Counted {
    pub pid: u32,
    pub counts: Counts,
}

/// Whether each call so far found the tree as its first stop found it, and what was counted for those that are begun.
#[derive(Drop)]
pub(crate) struct Judge {
    pub undisturbed: bool,
    pub counted: Vec<Counted>,
}

impl Judge {
    /// Of a run without a step.
    pub(crate) fn new(alloc: Global) -> Judge
        ensures undisturbed { result.undisturbed ≡ true }
        ensures counted { result.counted.items ≡ [] }
    {
        Judge {
            undisturbed: true,
            counted: Vec::new(alloc),
        }
    }

    /// The call of a process was begun.
    pub(crate) fn begin(&mut self, pid: u32, counts: Counts) -> Result<(), NoMemory>
        ensures undisturbed { OnOk result (self.new.undisturbed ≡ self.old.undisturbed) }
        ensures counted { OnOk result (self.new.counted.items ≡ counted_at pid counts self.old.counted.items) }
    {
        count(&mut self.counted, pid, counts)
    }

    /// The call of a process is about to be carried out.
    pub(crate) fn judge(&mut self, pid: u32, exec: bool, counts: Counts)
        ensures undisturbed { self.new.undisturbed ≡ (self.old.undisturbed && not (is_altered pid exec counts self.old.counted.items)) }
        ensures counted { self.new.counted.items ≡ self.old.counted.items }
    {
        let altered = is_altered(self.counted.as_slice(), pid, exec, counts);
        self.undisturbed = unless(self.undisturbed, altered);
    }

    /// The call of a process was carried out, and is done, or waits.
    pub(crate) fn go_on(&mut self, pid: u32, done: bool, counts: Counts) -> Result<(), NoMemory>
        ensures undisturbed { OnOk result (self.new.undisturbed ≡ self.old.undisturbed) }
        ensures counted { OnOk result (self.new.counted.items ≡ counted_after pid done counts self.old.counted.items) }
    {
        count_after(&mut self.counted, pid, done, counts)
    }
}

/// What was counted for a process.
fn found(counted: &[Counted], pid: u32) -> Option<&Counted>
    ensures { option_copied result ≡ find (is_counted pid) counted.now }
{
    counted.iter().find(|c| c.pid == pid)
}

fn counts_of(counted: &[Counted], pid: u32) -> Option<Counts>
    ensures { result ≡ counts_of pid counted.now }
{
    match found(counted, pid) {
        Some(own) => Some(own.counts),
        None => None,
    }
}

/// Whether the shape of the tree was altered from one to the other, or for an execve(2) the bytes of files.
fn differs(exec: bool, before: Counts, counts: Counts) -> bool
    ensures { result ≡ differs exec before counts }
{
    before.shape != counts.shape || exec && before.bytes != counts.bytes
}

/// Whether others altered it since the call of a process was begun.
fn is_altered(counted: &[Counted], pid: u32, exec: bool, counts: Counts) -> bool
    ensures { result ≡ is_altered pid exec counts counted.now }
{
    match counts_of(counted, pid) {
        Some(before) => differs(exec, before, counts),
        None => false,
    }
}

/// Whether something holds, and that which would break it isn't so.
pub(crate) fn unless(holds: bool, broken: bool) -> bool
    ensures { result ≡ (holds && not broken) }
{
    holds && !broken
}

/// Forgets what was counted for a process.
fn forget(counted: &mut Vec<Counted>, pid: u32)
    ensures { counted.new.items ≡ uncounted pid counted.old.items }
{
    counted.retain(|c| c.pid != pid);
}

/// Keeps what is counted for a process, in place of what was.
fn count(counted: &mut Vec<Counted>, pid: u32, counts: Counts) -> Result<(), NoMemory>
    ensures { OnOk result (counted.new.items ≡ counted_at pid counts counted.old.items) }
{
    forget(counted, pid);
    counted.push(Counted { pid, counts })?;
    Ok(())
}

/// Keeps it for one whose call waits: what that call did itself was done by no other. Of a call that is done nothing is kept.
fn count_after(
    counted: &mut Vec<Counted>,
    pid: u32,
    done: bool,
    counts: Counts,
) -> Result<(), NoMemory>
    ensures { OnOk result (counted.new.items ≡ counted_after pid done counts counted.old.items) }
{
    if done {
        forget(counted, pid);
        return Ok(());
    }
    count(counted, pid, counts)
}
