//! What a tracer is told before a process lives.
ghost use Rattle.std.specs.Prelude.{◌≡◌, ℕ, ◌&&◌, not, take, true, IfOk};
ghost use Rattle.std.specs.Option.{option_map};
ghost use Rattle.pr_words.specs.pr_base.Peeks.{IsNoted, IsPeeked};
ghost use Rattle.pr_words.specs.pr_base.declared.path.WalkMode.TheVariants.{LookLink};
ghost use Rattle.kr_first.specs.kr_tree.declared.place.Host.TheVariants.{Node};
ghost use Rattle.kr_first.specs.kr_view.Answers.{IsAnswer, IsReached};
ghost use Rattle.kr_first.specs.kr_view.Reach.{nothing};
ghost use Rattle.kr_first.specs.kr_view.View.{plain};
ghost use Rattle.kr_first.specs.kr_view.declared.view.HostMount.{HostMount};
ghost use Rattle.kr_first.specs.Starting.{around};
ghost use Rattle.kr_first.specs.kr_model.Peeks.{head_at};
ghost use Rattle.kr_hostview.specs.NoJumps.{fronts-along, no-jump-along};
ghost use Rattle.kr_hostview.specs.OnHost.{number};
ghost use Rattle.kr_hostview.specs.Peeking.{IsFound};
ghost use Rattle.pt_first.specs.FirstPeeks.{answer_along, first_peeked, host_walk, is_steady_path, kind_at, link_text_at};

use kr_first::below::{Host, Ino, Kind, ProcAt, Right, Tree, User};
use kr_hostview::below::{HostMount, NoProcs, Places, Plain, Reach, Target, WalkFault, resolve};
use pr_words::below::{BaseKind, Bytes, Errno, NoMemory, PeekFault, PeekKind, Peeks, WalkMode};
use std::alloc::Global;
use std::marker::Model;

/// The number of the first process, in whose name its walks are made.
const FIRST: u32 = 2;

/// What a tracer may ask of a tree before a process lives, in the name of a user: what the walks of the host's own view find. The process
/// directory has no names yet.
#[derive(Drop)]
pub struct FirstPeeks<'a> {
    looker: Looker<'a>,
    unmet: bool,
}

impl<'a> Model for FirstPeeks<'a> {
    ghost use Rattle.std.specs.Coded.{codes};
    ghost use Rattle.kr_first.specs.kr_tree.Tree.{tree_code};
    ghost use Rattle.pt_first.specs.FirstPeeks.{Asked};

    ghost Value = { Asked };

    ghost coded = { Prim.hlevel (codes, tree_code) };

    ghost view = { λ p. record { tree = p.looker.tree.now; user = p.looker.user; unmet = p.unmet } };
}

impl<'a> FirstPeeks<'a> {
    /// Nothing was asked yet.
    pub fn new(alloc: Global, tree: &'a Tree, user: User) -> FirstPeeks<'a>
        ensures tree { result.tree ≡ tree.now }
        ensures user { result.user ≡ user }
        ensures unmet { result.unmet ≡ true }
    {
        FirstPeeks {
            looker: Looker { alloc, tree, user },
            unmet: true,
        }
    }

    /// Whether no peek looked up a name in the process directory so far.
    pub fn unmet(&self) -> bool
        ensures { result ≡ self.now.unmet }
    {
        self.unmet
    }
}

impl<'a> Peeks for FirstPeeks<'a> {
    ghost use Rattle.std.specs.Prelude.{refl};
    ghost use Rattle.pt_first.specs.FirstPeeks.{Left, first_peeked};

    ghost peeked = { λ p. first_peeked p.tree p.user };

    ghost Kept = { Left };

    ghost kept = { λ p. record { tree = p.tree; user = p.user } };

    ghost unmet = { λ p. p.unmet };

    fn kind(&mut self, host: &[u8]) -> Result<PeekKind, PeekFault> {
        self.looker.kind(host, &mut self.unmet)
    }

    fn link_text(&mut self, host: &[u8]) -> Result<Bytes, PeekFault> {
        self.looker.link_text(host, &mut self.unmet)
    }

    fn head(&mut self, host: &[u8], n: u32) -> Result<Bytes, PeekFault> {
        self.looker.head(host, n, &mut self.unmet)
    }

    fn steady(&mut self, host: &[u8]) -> Result<bool, NoMemory> {
        self.looker.steady(host)
    }

    fn base_kind(&mut self, _pid: u32, _fd: u32) -> BaseKind {
        BaseKind::Closed
    }

    fn base_name(&mut self, _pid: u32, _fd: u32) -> Result<Option<Bytes>, NoMemory> {
        Ok(None)
    }

    fn cwd_name(&mut self, _pid: u32) -> Result<Option<Bytes>, NoMemory> {
        Ok(None)
    }

    fn exe_name(&mut self, _pid: u32) -> Result<Option<Bytes>, NoMemory> {
        Ok(None)
    }

    ghost names_are_texts = { λ p. record { base = λ pid fd. tt; cwd = λ pid. tt; exe = λ pid. tt } };

    ghost steady_is_no_jump = { λ p. no-jump-along (around plain p.tree p.user) };

    ghost fronts_are_steady = { λ p. fronts-along (around plain p.tree p.user) };
}

/// A tree before a process lives, in the name of a user.
#[derive(Clone, Copy)]
struct Looker<'a> {
    alloc: Global,
    tree: &'a Tree,
    user: User,
}

impl<'a> Looker<'a> {
    /// The kind of what a host path leads to. It fails as the walk there does. In `unmet` it is noted where the walk looks up a name in the
    /// process directory, as in the next two.
    fn kind(&self, host: &[u8], unmet: &mut bool) -> Result<PeekKind, PeekFault>
        ensures noted { IsNoted (unmet.old && is_steady_path self.now.tree.now self.now.user host.now) unmet.new result }
        ensures answer { IsPeeked ((first_peeked self.now.tree.now self.now.user).kind host.now) result }
    {
        match self.find(host, unmet)? {
            Some(object) => kind_of(self.tree, object),
            None => Err(PeekFault::Err(Errno::ENOENT)),
        }
    }

    /// The text of the link to which a host path leads.
    fn link_text(&self, host: &[u8], unmet: &mut bool) -> Result<Bytes, PeekFault>
        ensures noted { IsNoted (unmet.old && is_steady_path self.now.tree.now self.now.user host.now) unmet.new result }
        ensures answer { IsPeeked ((first_peeked self.now.tree.now self.now.user).link_text host.now) result }
    {
        match self.find(host, unmet)? {
            Some(object) => self.text_of(object),
            None => Err(PeekFault::Err(Errno::ENOENT)),
        }
    }

    /// The first bytes of the file to which a host path leads.
    fn head(&self, host: &[u8], n: u32, unmet: &mut bool) -> Result<Bytes, PeekFault>
        ensures noted { IsNoted (unmet.old && is_steady_path self.now.tree.now self.now.user host.now) unmet.new result }
        ensures answer { IsPeeked ((first_peeked self.now.tree.now self.now.user).head host.now n) result }
    {
        match self.find(host, unmet)? {
            Some(object) => self.head_of(object, n),
            None => Err(PeekFault::Err(Errno::ENOENT)),
        }
    }

    /// Whether the walk along a host path looks up no name in the process directory, wherever it ends.
    fn steady(&self, host: &[u8]) -> Result<bool, NoMemory>
        ensures { IfOk result (λ steady. steady ≡ is_steady_path self.now.tree.now self.now.user host.now) }
    {
        let mut reach = nowhere();
        match self.walked(host, &mut reach) {
            Ok(_target) => Ok(!reach.met_proc),
            Err(WalkFault::Err(_errno)) => Ok(!reach.met_proc),
            Err(WalkFault::NoMemory) => Err(NoMemory),
        }
    }

    /// What a host path leads to, where a last link isn't followed.
    fn find(&self, host: &[u8], unmet: &mut bool) -> Result<Option<Host>, PeekFault>
        ensures found { IsFound (answer_along self.now.tree.now self.now.user host.now) result }
        ensures noted { IsNoted (unmet.old && is_steady_path self.now.tree.now self.now.user host.now) unmet.new result }
    {
        let mut reach = nowhere();
        match self.walked(host, &mut reach) {
            Ok(target) => {
                *unmet = unmet_behind(*unmet, reach);
                Ok(found_in(target))
            }
            Err(WalkFault::Err(errno)) => {
                *unmet = unmet_behind(*unmet, reach);
                Err(PeekFault::Err(errno))
            }
            Err(WalkFault::NoMemory) => Err(PeekFault::NoMemory),
        }
    }

    /// Where the walk along a host path ends, if a last link isn't followed, and what it reaches.
    fn walked(&self, host: &[u8], reach: &mut Reach) -> Result<Target<HostMount>, WalkFault>
        ensures answer { IsAnswer number (answer_along self.now.tree.now self.now.user host.now) result }
        ensures reach { let host_view = around plain self.now.tree.now self.now.user in
            IsReached host_view LookLink (host_walk self.now.tree.now self.now.user host.now) reach.old reach.new result }
    {
        let places = Plain::new();
        let procs = NoProcs::new();
        resolve(
            self.alloc,
            &places,
            &procs,
            self.tree,
            self.user,
            FIRST,
            places.root(),
            host,
            WalkMode::LookLink,
            reach,
        )
    }

    /// The text of a link.
    fn text_of(&self, object: Host) -> Result<Bytes, PeekFault>
        ensures { IsPeeked (link_text_at self.now.tree.now object) result }
    {
        match object {
            Host::Node(ino) => match self.tree.link_text(ino) {
                Some(text) => {
                    let copy = Bytes::copy(self.alloc, text)?;
                    Ok(copy)
                }
                None => Err(PeekFault::Err(Errno::EINVAL)),
            },
            Host::Proc(_, _) => Err(PeekFault::Err(Errno::EINVAL)),
        }
    }

    /// The first bytes of a file that the user may execute.
    fn head_of(&self, object: Host, n: u32) -> Result<Bytes, PeekFault>
        ensures { IsPeeked (head_at self.now.tree.now self.now.user n object) result }
    {
        match object {
            Host::Node(ino) => self.file_head(ino, n),
            Host::Proc(_, _) => Err(PeekFault::Err(Errno::EACCES)),
        }
    }

    /// The first bytes of an inode that is a file which the user may execute.
    fn file_head(&self, ino: Ino, n: u32) -> Result<Bytes, PeekFault>
        ensures { IsPeeked (head_at self.now.tree.now self.now.user n (Node ino)) result }
    {
        let Some(bytes) = self.tree.file(ino) else {
            return Err(PeekFault::Err(Errno::EACCES));
        };
        if !self.tree.may(self.user, ino, Right::Search) {
            return Err(PeekFault::Err(Errno::EACCES));
        }
        let copy = Bytes::copy(self.alloc, front(bytes, n))?;
        Ok(copy)
    }
}

/// Whether the process directory is unmet still, behind a walk that reached so much.
fn unmet_behind(unmet: bool, reach: Reach) -> bool
    ensures { result ≡ (unmet && not reach.met_proc) }
{
    unmet && !reach.met_proc
}

/// The object that a walk found.
fn found_in(target: Target<HostMount>) -> Option<Host>
    ensures { result ≡ option_map (λ p. p.host) target.found }
{
    match target.found {
        Some(place) => Some(place.host),
        None => None,
    }
}

/// Nothing was reached yet.
fn nowhere() -> Reach
    ensures { result ≡ nothing }
{
    Reach {
        longest: 0,
        met_proc: false,
    }
}

/// The kind of an object.
fn kind_of(tree: &Tree, object: Host) -> Result<PeekKind, PeekFault>
    ensures { (user : User) → IsPeeked (kind_at tree.now user object) result }
{
    match object {
        Host::Node(ino) => match tree.kind(ino) {
            Some(Kind::Dir) | Some(Kind::Proc) => Ok(PeekKind::Dir),
            Some(Kind::File) => Ok(PeekKind::File),
            Some(Kind::Link) => Ok(PeekKind::Link),
            None => Err(PeekFault::Err(Errno::ENOENT)),
        },
        Host::Proc(_, ProcAt::Dir(_) | ProcAt::FdDir(_)) => Ok(PeekKind::Dir),
        Host::Proc(_, _) => Ok(PeekKind::Jump),
    }
}

/// The first `n` bytes, or all where there are fewer.
fn front(bytes: &[u8], n: u32) -> &[u8]
    ensures { result.now ≡ take n bytes.now }
{
    let end = bytes.len().min(n as usize);
    &bytes[..end]
}
