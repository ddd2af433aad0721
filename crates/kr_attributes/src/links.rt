//! readlinkat(2): the text of a link.
ghost use Rattle.std.specs.Prelude.{◌≢◌, ◌≡◌, ℕ, List, Option, IfOk};
ghost use Rattle.kr_seen.specs.kr_tree.declared.place.Host.TheVariants.{Node, Proc};
ghost use Rattle.kr_seen.specs.kr_model.AttributeRows.{readlinkat_row, tell_text};
ghost use Rattle.kr_seen.specs.kr_model.Known.{known};
ghost use Rattle.kr_seen.specs.kr_model.Operation.{link_read};
ghost use Rattle.kr_seen.specs.kr_model.ProcessDirectory.{link_text};
ghost use Rattle.kr_seen.specs.kr_model.State.{image_layout};
ghost use Rattle.kr_seen.specs.kr_model.Walks.{text_at};
ghost use Rattle.kr_seen.specs.kr_model.declared.outcome.Outcome.TheVariants.{NoMemory as WantOfMemory};
ghost use Rattle.kr_seen.specs.kr_ops.Meaning.{meaning};
ghost use Rattle.kr_seen.specs.kr_ops.Sound.{IsLawfulFor, IsLawfulIn, IsServed, IsSoundFor};
ghost use Rattle.kr_seen.specs.Numbered.{state_numbered};
ghost use Rattle.kr_seen.specs.Performing.{PerformsAt};
ghost use Rattle.kr_seen.specs.PerformedRows.{Performs};
ghost use Rattle.kr_attributes.specs.Named.{AnswersText, seen_link};

use crate::found::is_process_directory;
use kr_seen::below::{
    Bytes, Errno, Host, Ino, NoMemory, Outcome, Places, ProcAt, State, Target,
    lawful_states_are_sound,
};
use kr_seen::laws::shows_the_directory;
use kr_seen::{caller, procs, refused};

/// Why a link has no text to tell.
pub(crate) enum TextFault {
    Refused(Errno),
    NoMemory,
}

impl From<NoMemory> for TextFault {
    ghost use Rattle.std.specs.Prelude.{◌≡◌};
    ghost use Rattle.kr_attributes.specs.declared.links.TextFault.TheVariants.{NoMemory as Wanting};

    ghost from_gives = { λ error fault. fault ≡ Wanting };

    fn from(_error: NoMemory) -> TextFault {
        TextFault::NoMemory
    }
}

/// readlinkat(2): EINVAL of what is no link, ENOENT of a link of the process directory to what has no name, EFAULT; as many bytes as
/// fit, and their number.
pub fn readlinkat<P: Places, const M: u8>(
    places: &P,
    state: &mut State<P::Mount, M>,
    pid: u32,
    target: &Target<P::Mount>,
    buf: u64,
    size: i32,
) -> Outcome
    requires { IsLawfulFor P.number (P.mounts places.now) pid state.old }
    ensures performs { PerformsAt target.now pid (λ k. link_read (seen_link P.number (P.mounts places.now) pid state.old target.now) (λ l text. readlinkat_row k l text buf size)) state.old state.new result }
    ensures served { result ≢ WantOfMemory → IsServed state.new }
{
    lawful_states_are_sound::<P::Mount, M>();
    let Some(place) = target.found else {
        return refused(Errno::ENOENT);
    };
    match text(places, state, pid, place.host) {
        Ok(text) => tell_text(state, pid, buf, text.as_slice(), size.unsigned_abs()),
        Err(TextFault::Refused(errno)) => refused(errno),
        Err(TextFault::NoMemory) => Outcome::NoMemory,
    }
}

/// Writes the first bytes of a text: EFAULT; their number.
fn tell_text<T: Copy, const M: u8>(
    state: &mut State<T, M>,
    pid: u32,
    buf: u64,
    text: &[u8],
    size: u32,
) -> Outcome
    requires { IsSoundFor pid state.old }
    ensures performs { Performs pid (λ k. tell_text buf size text.now) state.old state.new result }
    ensures served { result ≢ WantOfMemory → IsServed state.new }
{
    let count = text.len().min(size as usize);
    caller::tell(state, pid, buf, &text[..count], count as u32)
}

/// The text of a link: EINVAL of what is no link, ENOENT of one that leads to what has no name.
fn text<P: Places, const M: u8>(
    places: &P,
    state: &State<P::Mount, M>,
    pid: u32,
    host: Host,
) -> Result<Bytes, TextFault>
    requires { IsLawfulIn P.number (P.mounts places.now) state.now }
    ensures { AnswersText (known image_layout pid (meaning state.now)) host (text_at (P.mounts places.now) pid (state_numbered P.number (meaning state.now)) host) result }
{
    match host {
        Host::Node(ino) => node_text(state, ino),
        Host::Proc(_, at) => process_text(places, state, pid, at),
    }
}

/// The text of a link of the tree.
fn node_text<T: Copy, const M: u8>(state: &State<T, M>, ino: Ino) -> Result<Bytes, TextFault>
    ensures { (pid : ℕ) (text : Option (List ℕ)) → AnswersText (known image_layout pid (meaning state.now)) (Node ino) text result }
{
    match state.tree.link_text(ino) {
        Some(text) => Ok(Bytes::copy(*state.living.allocator(), text)?),
        None => match state.tree.kind(ino) {
            Some(_) => Err(TextFault::Refused(Errno::EINVAL)),
            None => Err(TextFault::Refused(Errno::ENOENT)),
        },
    }
}

/// The text of a link of the process directory.
fn process_text<P: Places, const M: u8>(
    places: &P,
    state: &State<P::Mount, M>,
    pid: u32,
    at: ProcAt,
) -> Result<Bytes, TextFault>
    requires { IsLawfulIn P.number (P.mounts places.now) state.now }
    ensures { (i : ℕ) → AnswersText (known image_layout pid (meaning state.now)) (Proc i at) (link_text (P.mounts places.now) (state_numbered P.number (meaning state.now)) pid at) result }
{
    if is_process_directory(at) {
        return Err(TextFault::Refused(Errno::EINVAL));
    }
    match shown_text(places, state, pid, at)? {
        Some(text) => Ok(text),
        None => Err(TextFault::Refused(Errno::ENOENT)),
    }
}

/// The text that the process directory shows of a link, `None` exactly where it leads to what has no name.
pub(crate) fn shown_text<P: Places, const M: u8>(
    places: &P,
    state: &State<P::Mount, M>,
    pid: u32,
    at: ProcAt,
) -> Result<Option<Bytes>, NoMemory>
    requires { IsLawfulIn P.number (P.mounts places.now) state.now }
    ensures { IfOk result (λ text. text ≡ link_text (P.mounts places.now) (state_numbered P.number (meaning state.now)) pid at) }
{
    shows_the_directory::<P::Mount>();
    let root = places.root();
    let shown = procs(*state.living.allocator(), places, state, &root);
    shown.text(pid, at)
}
