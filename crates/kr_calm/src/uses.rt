//! What is asked of the directories that processes use.
ghost use Rattle.std.specs.Prelude.{◌≡◌};
ghost use Rattle.kr_seen.specs.kr_files.Descriptors.{meanings};
ghost use Rattle.kr_seen.specs.kr_files.Files.{NamesOpenFiles};
ghost use Rattle.kr_seen.specs.kr_model.State.{inode_of};
ghost use Rattle.kr_seen.specs.kr_ops.Meaning.{meaning};
ghost use Rattle.kr_seen.specs.kr_ops.Sound.{IsServed};
ghost use Rattle.kr_calm.specs.InUse.{any_opened, directory_of, is_directory_of};
ghost use Rattle.kr_calm.specs.Questions.{opened_answers, own_answers, use_answers};

use crate::above::is_at_or_below;
use kr_seen::below::{DESCRIPTORS, Descs, Files, Host, Ino, Opened, ProcAt, State, Tree, What};

/// A question about what processes use.
#[derive(Clone, Copy)]
pub(crate) enum UseQuestion {
    /// Whether a directory is in use or stands above one that is.
    Above(Ino),
    /// Whether a directory in use is one of a process's own in the process directory.
    Of(u32),
    /// Whether a directory holds, or stands above one that holds, the name of an executable or of an open file.
    Remembered(Ino),
}

/// The inode of an object; what stands in the process directory has that directory's.
pub(crate) fn inode_of(host: Host) -> Ino
    ensures { result ≡ inode_of host }
{
    match host {
        Host::Node(ino) | Host::Proc(ino, _) => ino,
    }
}

/// Whether an object is one of a process's own directories in the process directory.
fn is_directory_of(pid: u32, host: Host) -> bool
    ensures { result ≡ is_directory_of pid host }
{
    match host {
        Host::Proc(_, ProcAt::Dir(number) | ProcAt::FdDir(number)) => number == pid,
        _ => false,
    }
}

/// What is open, where it is a directory.
fn directory_of<T: Copy>(opened: &Opened<T>) -> Option<Host>
    ensures { result ≡ directory_of opened.now }
{
    match (opened.what, opened.place) {
        (What::Dir, Some(place)) => Some(place.host),
        _ => None,
    }
}

/// What an open file answers.
fn opened_answers<T: Copy>(tree: &Tree, opened: &Opened<T>, question: UseQuestion) -> bool
    ensures { result ≡ opened_answers tree.now question opened.now }
{
    match question {
        UseQuestion::Above(ino) => match directory_of(opened) {
            Some(host) => is_at_or_below(tree, ino, inode_of(host)),
            None => false,
        },
        UseQuestion::Of(pid) => match directory_of(opened) {
            Some(host) => is_directory_of(pid, host),
            None => false,
        },
        UseQuestion::Remembered(ino) => {
            !opened.name.as_slice().is_empty() && is_at_or_below(tree, ino, opened.dir)
        }
    }
}

/// Whether what is open under one of a process's descriptors answers yes.
fn any_opened<T: Copy>(tree: &Tree, files: &Files<T>, descs: &Descs, question: UseQuestion) -> bool
    requires { NamesOpenFiles files.now descs.now }
    ensures { result ≡ any_opened (opened_answers tree.now question) files.now.table (meanings descs.now) }
{
    for fd in 0..DESCRIPTORS {
        if let Some(opened) = files.get(descs, fd) {
            if opened_answers(tree, opened, question) {
                return true;
            }
        }
    }
    false
}

/// What a process's working directory answers, or the entry that its executable remembers.
fn own_answers(tree: &Tree, cwd: Host, exe_dir: Ino, exe_name: &[u8], question: UseQuestion) -> bool
    ensures { result ≡ own_answers tree.now question cwd exe_dir exe_name.now }
{
    match question {
        UseQuestion::Above(ino) => is_at_or_below(tree, ino, inode_of(cwd)),
        UseQuestion::Of(pid) => is_directory_of(pid, cwd),
        UseQuestion::Remembered(ino) => {
            !exe_name.is_empty() && is_at_or_below(tree, ino, exe_dir)
        }
    }
}

/// Whether a living process answers yes.
pub(crate) fn any_use<T: Copy, const M: u8>(state: &State<T, M>, question: UseQuestion) -> bool
    requires { IsServed state.now }
    ensures { result ≡ use_answers question (meaning state.now) }
{
    for k in 0..state.living.len() {
        let process = &state.living[k];
        let exe_name = process.exe_name.as_slice();
        if own_answers(
            &state.tree,
            process.cwd.host,
            process.exe_dir,
            exe_name,
            question,
        ) {
            return true;
        }
        if any_opened(&state.tree, &state.files, &process.descs, question) {
            return true;
        }
    }
    false
}
