//! One component, looked at from a place.
ghost use Rattle.std.specs.Prelude.{◌≡◌, ℕ, true, None};
ghost use Rattle.std.specs.Option.{option_and_then};
ghost use Rattle.kr_view.specs.kr_tree.Tree.{body, text_of, above as node_above};
ghost use Rattle.kr_view.specs.View.{is_root_place, node_in};
ghost use Rattle.kr_view.specs.kr_tree.declared.place.Host.TheVariants.{Node};
ghost use Rattle.kr_view.specs.Leads.{numbered};
ghost use Rattle.kr_view.specs.kr_tree.pr_base.Paths.{DotDot, Name};
ghost use Rattle.kr_walk.specs.Components.{component_data};
ghost use Rattle.kr_walk.specs.Sights.{surroundings_of, sight_seen};
ghost use Rattle.kr_walk.specs.Ways.{HasKind, spot_of, IsSightAt, IsSightCalled, IsSightWay};
ghost use Rattle.kr_view.specs.Names.{led_to_name, found_process_name, node_entry_name};
ghost use Rattle.kr_view.specs.Component.{is_process_directory, is_directory_at, may_search, seen_at, above, above_process, above_body, in_processes, seen_in_processes, in_node, named, look_up, is_looked_up, meets_processes, is_shown};

use crate::component::Component;
use kr_view::below::kr_tree::{Host, Ino, Kind, Place, ProcAt, Right, Tree, User};
use kr_view::below::pr_base::Errno;
use kr_view::{Places, Procs};
use std::alloc::Global;

/// What a walk goes through: the mounts, the tree, the user, and what the processes show to the caller.
#[derive(Clone, Copy)]
pub(crate) struct Surroundings<'a, P, Q> {
    pub(crate) alloc: Global,
    pub(crate) places: &'a P,
    pub(crate) procs: &'a Q,
    pub(crate) tree: &'a Tree,
    pub(crate) user: User,
    pub(crate) caller: u32,
}

/// What a component shows.
#[derive(Clone, Copy)]
pub(crate) enum Sight<'a, M> {
    /// It can't be looked up.
    Fails(Errno),
    /// There is no such entry.
    Missing,
    /// What stands there is no link; whether it is a directory.
    Leads(Spot<M>, bool),
    /// A link of the tree, with its text.
    Links(Spot<M>, &'a [u8]),
    /// A link of the process directory.
    Jumps(Spot<M>, ProcAt),
}

/// A place that a component shows, and how a walk comes to it.
#[derive(Clone, Copy)]
pub(crate) struct Spot<M> {
    pub(crate) place: Place<M>,
    pub(crate) way: Way,
}

/// How a walk comes to what a component shows.
#[derive(Clone, Copy)]
pub(crate) enum Way {
    /// The inode stays the same.
    Stays,
    /// To the directory above, in the same mount.
    Rises,
    /// From the source of a mount to the directory of its mount point.
    CrossesUp,
    /// From a mount point to the source of the mount that stands there.
    CrossesDown,
    /// To an entry.
    Enters,
}

/// The longest name of an entry.
const NAME_LIMIT: usize = 255;

/// Whether what stands in the process directory is a directory; all else is a link.
pub(crate) fn is_process_directory(at: ProcAt) -> bool
    ensures { result ≡ is_process_directory at }
{
    matches!(at, ProcAt::Dir(_) | ProcAt::FdDir(_))
}

/// Whether a component is looked up among entries.
fn is_looked_up(component: &Component<'_>) -> bool
    ensures { result ≡ is_looked_up (component_data component.now) }
{
    match component {
        Component::Dot | Component::DotDot => false,
        Component::Name(name) => name.len() <= NAME_LIMIT,
    }
}

impl<'a, P: Places, Q: Procs<Mount = P::Mount>> Surroundings<'a, P, Q> {
    /// Whether an object is a directory.
    pub(crate) fn is_directory(&self, host: Host) -> bool
        ensures { result ≡ is_directory_at self.now.tree.now host }
    {
        match host {
            Host::Node(ino) => matches!(self.tree.kind(ino), Some(Kind::Dir | Kind::Proc)),
            Host::Proc(_, at) => is_process_directory(at),
        }
    }

    /// Whether the user may search an object.
    fn may_search(&self, host: Host) -> bool
        ensures { result ≡ may_search self.now.tree.now self.now.user host }
    {
        match host {
            Host::Node(ino) => self.tree.may(self.user, ino, Right::Search),
            Host::Proc(_, _) => true,
        }
    }

    /// Whether an object is the process directory, or stands in it.
    fn in_processes(&self, host: Host) -> bool
        ensures { let around = surroundings_of P.number P.mounts Q.finds Q.leads self.now in
            result ≡ in_processes around.space host }
    {
        match host {
            Host::Node(ino) => matches!(self.tree.kind(ino), Some(Kind::Proc)),
            Host::Proc(_, _) => true,
        }
    }

    /// Whether a process is still shown to the caller.
    pub(crate) fn is_shown(&self, pid: u32) -> bool
        ensures { let around = surroundings_of P.number P.mounts Q.finds Q.leads self.now in
            result ≡ is_shown around.space pid }
    {
        self.procs
            .find(self.caller, Some(ProcAt::Dir(pid)), b"cwd")
            .is_some()
    }

    /// What stands at a place to which a walk comes.
    fn seen_at(&self, spot: Spot<P::Mount>) -> Sight<'a, P::Mount>
        ensures seen { let around = surroundings_of P.number P.mounts Q.finds Q.leads self.now in
            sight_seen P.number around result ≡ seen_at around (numbered P.number spot.place) spot.place.host }
        ensures spot { IsSightAt spot result }
        ensures kind { let around = surroundings_of P.number P.mounts Q.finds Q.leads self.now in
            HasKind around.space result }
    {
        match spot.place.host {
            Host::Node(ino) => match self.tree.link_text(ino) {
                Some(text) => Sight::Links(spot, text),
                None => self.seen_node(spot, ino),
            },
            Host::Proc(_, at) => {
                if is_process_directory(at) {
                    Sight::Leads(spot, true)
                } else {
                    Sight::Jumps(spot, at)
                }
            }
        }
    }

    /// What stands at an inode that is no link.
    fn seen_node(&self, spot: Spot<P::Mount>, ino: Ino) -> Sight<'a, P::Mount>
        requires at { spot.place.host ≡ Node ino }
        requires no_link { option_and_then text_of (body self.now.tree.now ino) ≡ None }
        ensures seen { let around = surroundings_of P.number P.mounts Q.finds Q.leads self.now in
            sight_seen P.number around result ≡ seen_at around (numbered P.number spot.place) (Node ino) }
        ensures spot { IsSightAt spot result }
        ensures kind { let around = surroundings_of P.number P.mounts Q.finds Q.leads self.now in
            HasKind around.space result }
    {
        match self.tree.kind(ino) {
            Some(Kind::Dir | Kind::Proc) => Sight::Leads(spot, true),
            Some(Kind::File) => Sight::Leads(spot, false),
            Some(Kind::Link) | None => Sight::Missing,
        }
    }

    /// What `..` shows from a place.
    fn above(&self, place: Place<P::Mount>) -> Sight<'a, P::Mount>
        ensures seen { let around = surroundings_of P.number P.mounts Q.finds Q.leads self.now in
            sight_seen P.number around result ≡ above around.space (numbered P.number place) }
        ensures way { let around = surroundings_of P.number P.mounts Q.finds Q.leads self.now in
            IsSightWay P.number around.space (numbered P.number place) DotDot result }
        ensures kind { let around = surroundings_of P.number P.mounts Q.finds Q.leads self.now in
            HasKind around.space result }
    {
        if self.is_root_place(place) {
            return Sight::directory(place, Way::Stays);
        }
        match place.host {
            Host::Node(ino) => match self.places.up(place.mount, ino) {
                Some(point) => Sight::directory(point, Way::CrossesUp),
                None => self.above_node(place.mount, ino),
            },
            Host::Proc(ino, at) => self.above_process(place.mount, ino, at),
        }
    }

    /// Whether a place is where absolute paths begin.
    fn is_root_place(&self, place: Place<P::Mount>) -> bool
        ensures { result ≡ is_root_place (P.mounts self.now.places.now) (numbered P.number place) }
    {
        let root = self.places.root();
        self.places.same(place.mount, root.mount) && place.host == root.host
    }

    /// The directory above one that isn't the source of its mount.
    fn above_node(&self, mount: P::Mount, ino: Ino) -> Sight<'a, P::Mount>
        ensures seen { let around = surroundings_of P.number P.mounts Q.finds Q.leads self.now in
            sight_seen P.number around result ≡ above_body (P.number mount) (node_above self.now.tree.now ino) }
        ensures way { let around = surroundings_of P.number P.mounts Q.finds Q.leads self.now in
            IsSightCalled P.number around.space (node_in (P.number mount) ino) DotDot (led_to_name around.space (above_body (P.number mount) (node_above self.now.tree.now ino))) result }
        ensures kind { let around = surroundings_of P.number P.mounts Q.finds Q.leads self.now in
            HasKind around.space result }
    {
        match self.tree.above(ino) {
            Some(dir) => Sight::directory(
                Place {
                    mount,
                    host: Host::Node(dir),
                },
                Way::Rises,
            ),
            None => Sight::Fails(Errno::ENOENT),
        }
    }

    /// The directory above what stands in the process directory of an inode.
    fn above_process(&self, mount: P::Mount, ino: Ino, at: ProcAt) -> Sight<'a, P::Mount>
        ensures seen { let around = surroundings_of P.number P.mounts Q.finds Q.leads self.now in
            sight_seen P.number around result ≡ above_process around.space (P.number mount) ino at }
        ensures way { let around = surroundings_of P.number P.mounts Q.finds Q.leads self.now in
            IsSightCalled P.number around.space (node_in (P.number mount) ino) DotDot (led_to_name around.space (above_process around.space (P.number mount) ino at)) result }
        ensures kind { let around = surroundings_of P.number P.mounts Q.finds Q.leads self.now in
            HasKind around.space result }
    {
        let (pid, host) = match at {
            ProcAt::Dir(pid) => (pid, Host::Node(ino)),
            ProcAt::FdDir(pid) => (pid, Host::Proc(ino, ProcAt::Dir(pid))),
            _ => return Sight::Fails(Errno::ENOTDIR),
        };
        if self.is_shown(pid) {
            Sight::directory(Place { mount, host }, Way::Stays)
        } else {
            Sight::Fails(Errno::ENOENT)
        }
    }

    /// What a name shows in the process directory of an inode, or in a directory there.
    fn in_process(
        &self,
        mount: P::Mount,
        ino: Ino,
        at: Option<ProcAt>,
        name: &[u8],
    ) -> Sight<'a, P::Mount>
        ensures seen { let around = surroundings_of P.number P.mounts Q.finds Q.leads self.now in
            sight_seen P.number around result ≡ seen_in_processes around (P.number mount) ino (around.space.finds at name.now) }
        ensures way { let around = surroundings_of P.number P.mounts Q.finds Q.leads self.now in
            IsSightCalled P.number around.space (node_in (P.number mount) ino) (Name name.now) (found_process_name around.space ino (around.space.finds at name.now)) result }
        ensures kind { let around = surroundings_of P.number P.mounts Q.finds Q.leads self.now in
            HasKind around.space result }
    {
        match self.procs.find(self.caller, at, name) {
            Some(found) => self.seen_at(Spot {
                place: Place {
                    mount,
                    host: Host::Proc(ino, found),
                },
                way: Way::Stays,
            }),
            None => Sight::Missing,
        }
    }

    /// What a name that is no mount point shows in an inode.
    fn in_node(&self, mount: P::Mount, ino: Ino, name: &[u8]) -> Sight<'a, P::Mount>
        ensures seen { let around = surroundings_of P.number P.mounts Q.finds Q.leads self.now in
            sight_seen P.number around result ≡ in_node around (P.number mount) ino name.now }
        ensures way { let around = surroundings_of P.number P.mounts Q.finds Q.leads self.now in
            IsSightCalled P.number around.space (node_in (P.number mount) ino) (Name name.now) (node_entry_name around.space ino name.now) result }
        ensures kind { let around = surroundings_of P.number P.mounts Q.finds Q.leads self.now in
            HasKind around.space result }
    {
        if self.in_processes(Host::Node(ino)) {
            return self.in_process(mount, ino, None, name);
        }
        match self.tree.entry(ino, name) {
            Some(entry) => self.seen_at(Spot {
                place: Place {
                    mount,
                    host: Host::Node(entry),
                },
                way: Way::Enters,
            }),
            None => Sight::Missing,
        }
    }

    /// What a name shows.
    fn named(&self, place: Place<P::Mount>, name: &[u8]) -> Sight<'a, P::Mount>
        ensures seen { let around = surroundings_of P.number P.mounts Q.finds Q.leads self.now in
            sight_seen P.number around result ≡ named around (numbered P.number place) name.now }
        ensures way { let around = surroundings_of P.number P.mounts Q.finds Q.leads self.now in
            IsSightWay P.number around.space (numbered P.number place) (Name name.now) result }
        ensures kind { let around = surroundings_of P.number P.mounts Q.finds Q.leads self.now in
            HasKind around.space result }
    {
        if NAME_LIMIT < name.len() {
            return Sight::Fails(Errno::ENAMETOOLONG);
        }
        match place.host {
            Host::Node(ino) => match self.places.down(place.mount, ino, name) {
                Some(source) => self.seen_at(Spot {
                    place: source,
                    way: Way::CrossesDown,
                }),
                None => self.in_node(place.mount, ino, name),
            },
            Host::Proc(ino, at) => self.in_process(place.mount, ino, Some(at), name),
        }
    }

    /// What a component shows. The tests stand in the order in which path_resolution(7) has them.
    pub(crate) fn look_up(
        &self,
        place: Place<P::Mount>,
        component: &Component<'_>,
    ) -> Sight<'a, P::Mount>
        ensures seen { let around = surroundings_of P.number P.mounts Q.finds Q.leads self.now in
            sight_seen P.number around result ≡ look_up around (numbered P.number place) (component_data component.now) }
        ensures way { let around = surroundings_of P.number P.mounts Q.finds Q.leads self.now in
            IsSightWay P.number around.space (numbered P.number place) (component_data component.now) result }
        ensures kind { let around = surroundings_of P.number P.mounts Q.finds Q.leads self.now in
            HasKind around.space result }
    {
        if !self.is_directory(place.host) {
            return Sight::Fails(Errno::ENOTDIR);
        }
        if !self.may_search(place.host) {
            return Sight::Fails(Errno::EACCES);
        }
        match component {
            Component::Dot => Sight::directory(place, Way::Stays),
            Component::DotDot => self.above(place),
            Component::Name(name) => self.named(place, name),
        }
    }

    /// Whether a look-up comes to look up a name in the process directory.
    pub(crate) fn meets_processes(&self, place: Place<P::Mount>, component: &Component<'_>) -> bool
        ensures { let around = surroundings_of P.number P.mounts Q.finds Q.leads self.now in
            result ≡ meets_processes around.space (numbered P.number place) (component_data component.now) }
    {
        self.is_directory(place.host)
            && self.may_search(place.host)
            && is_looked_up(component)
            && self.in_processes(place.host)
    }
}

impl<M: Copy> Sight<'_, M> {
    /// Where something is shown, if it is.
    pub(crate) fn spot(&self) -> Option<Spot<M>>
        ensures { result ≡ spot_of self.now }
    {
        match self {
            Sight::Fails(_) | Sight::Missing => None,
            Sight::Leads(spot, _) | Sight::Links(spot, _) | Sight::Jumps(spot, _) => Some(*spot),
        }
    }

    /// A directory, where a walk goes on.
    fn directory(place: Place<M>, way: Way) -> Self
        ensures { result ≡ Sight.Leads (record { place = place; way = way }) true }
    {
        Sight::Leads(Spot { place, way }, true)
    }
}
