//! Where a walk stands, and the host name of that.
ghost use Rattle.std.specs.Prelude.{◌≡◌, true, ℕ, ◌+◌, ◌<◌, ◌^◌, List, Option, IfOk, IfSome};
ghost use Rattle.std.specs.Option.{option_map};
ghost use Rattle.kr_view.specs.Leads.{numbered};
ghost use Rattle.kr_walk.specs.Components.{component_data};
ghost use Rattle.kr_walk.specs.Sights.{surroundings_of};
ghost use Rattle.kr_view.specs.Names.{directory_name, component_name};
ghost use Rattle.kr_view.specs.Reach.{text_length, bytes_below};
ghost use Rattle.kr_walk.specs.Ways.{IsKind, IsSource, IsWay};
ghost use Rattle.kr_view.specs.View.{ino_of};
ghost use Rattle.kr_walk.specs.Positions.{IsNamed, is_gone};

use crate::component::{Component, name_of};
use crate::name::{
    bytes_above, bytes_of, cut_name, directory_name, entered, entry_length, length_of,
    names_hang_together, process_bytes,
};
use crate::surroundings::{Spot, Surroundings, Way};
use kr_view::below::kr_tree::{Host, Ino, Place, ProcAt};
use kr_view::below::pr_base::{Bytes, NoMemory};
use kr_view::{Places, Procs};

/// A place, and the host name of its inode as bytes below the root, if it has one.
#[derive(Drop)]
pub(crate) struct Position<M> {
    pub(crate) place: Place<M>,
    pub(crate) name: Option<Bytes>,
}

impl<M: Copy> Position<M> {
    pub(crate) fn place(&self) -> Place<M>
        ensures { result ≡ self.now.place }
    {
        self.place
    }
}

/// The inode of an object: its own, or that of the process directory.
fn ino_of(host: Host) -> Ino
    ensures { result ≡ ino_of host }
{
    match host {
        Host::Node(ino) | Host::Proc(ino, _) => ino,
    }
}

impl<'a, P: Places, Q: Procs<Mount = P::Mount>> Surroundings<'a, P, Q> {
    /// A place with the host name that the tree gives it.
    pub(crate) fn position(&self, place: Place<P::Mount>) -> Result<Position<P::Mount>, NoMemory>
        ensures place { IfOk result (λ position. position.place ≡ place) }
        ensures named { IfOk result (λ position. IsNamed self.now.tree.now position.place.host position.name) }
    {
        let name = directory_name(self.tree, ino_of(place.host))?;
        Ok(Position { place, name })
    }

    /// How many bytes the host name of an object has below the root, by that of its inode.
    pub(crate) fn object_bytes(&self, host: Host, name: &Option<Bytes>) -> Option<u64>
        requires { IsNamed self.now.tree.now host name.now }
        ensures bytes { let around = surroundings_of P.number P.mounts Q.finds Q.leads self.now in
            result ≡ option_map bytes_below (directory_name around.space host) }
        ensures small { IfSome result (λ n. n < 2 ^ 63 + 65) }
    {
        match host {
            Host::Node(_) => bytes_of(name),
            Host::Proc(_, at) => {
                if self.is_gone(at) {
                    None
                } else {
                    Some(bytes_of(name)? + process_bytes(at))
                }
            }
        }
    }

    /// Whether something in the process directory is a directory of a process that ended.
    fn is_gone(&self, at: ProcAt) -> bool
        ensures { let around = surroundings_of P.number P.mounts Q.finds Q.leads self.now in
            result ≡ is_gone around.space at }
    {
        match at {
            ProcAt::Dir(pid) | ProcAt::FdDir(pid) => !self.is_shown(pid),
            _ => false,
        }
    }

    /// The length of the host name of what a component shows.
    pub(crate) fn shown_length(
        &self,
        from: &Position<P::Mount>,
        component: &Component<'_>,
        spot: Spot<P::Mount>,
    ) -> Result<Option<u64>, NoMemory>
        requires named { IsNamed self.now.tree.now from.now.place.host from.now.name }
        requires way { let around = surroundings_of P.number P.mounts Q.finds Q.leads self.now in
            IsWay around.space (numbered P.number from.now.place) (component_data component.now) (numbered P.number spot.place) spot.way }
        ensures { let around = surroundings_of P.number P.mounts Q.finds Q.leads self.now in
            IfOk result (λ length. length ≡ option_map text_length (component_name around.space (numbered P.number from.now.place) (component_data component.now))) }
    {
        names_hang_together(self.tree);
        match spot.way {
            Way::Stays => Ok(length_of(self.object_bytes(spot.place.host, &from.name))),
            Way::Rises => Ok(length_of(bytes_above(&from.name))),
            Way::CrossesUp => self.length_by_tree(spot.place),
            Way::CrossesDown => self.source_length(spot.place),
            Way::Enters => Ok(entry_length(bytes_of(&from.name), name_of(component))),
        }
    }

    /// The length of the host name that the tree gives.
    pub(crate) fn length_by_tree(&self, place: Place<P::Mount>) -> Result<Option<u64>, NoMemory>
        ensures { let around = surroundings_of P.number P.mounts Q.finds Q.leads self.now in
            IfOk result (λ length. length ≡ option_map text_length (directory_name around.space place.host)) }
    {
        let position = self.position(place)?;
        Ok(length_of(self.object_bytes(place.host, &position.name)))
    }

    /// The length of the host name of a mount's source.
    fn source_length(&self, place: Place<P::Mount>) -> Result<Option<u64>, NoMemory>
        ensures { let around = surroundings_of P.number P.mounts Q.finds Q.leads self.now in
            IfOk result (λ length. (name : Option (List (List ℕ))) → IsSource around.space (numbered P.number place) name → length ≡ option_map text_length name) }
    {
        match self.places.source(place.mount) {
            Some((dir, entry)) => {
                let above = directory_name(self.tree, dir)?;
                Ok(entry_length(bytes_of(&above), entry))
            }
            None => self.length_by_tree(place),
        }
    }

    /// Where a walk stands that went on to what a component shows. What is no directory gets no name, since
    /// nothing is looked at from there.
    pub(crate) fn moved(
        &self,
        from: Position<P::Mount>,
        component: &Component<'_>,
        spot: Spot<P::Mount>,
        is_dir: bool,
    ) -> Result<Position<P::Mount>, NoMemory>
        requires named { IsNamed self.now.tree.now from.place.host from.name }
        requires way { let around = surroundings_of P.number P.mounts Q.finds Q.leads self.now in
            IsWay around.space (numbered P.number from.place) (component_data component.now) (numbered P.number spot.place) spot.way }
        requires kind { let around = surroundings_of P.number P.mounts Q.finds Q.leads self.now in
            IsKind around.space spot.place.host spot.way is_dir }
        ensures place { IfOk result (λ position. position.place ≡ spot.place) }
        ensures named { IfOk result (λ position. IsNamed self.now.tree.now position.place.host position.name) }
    {
        let place = spot.place;
        if !is_dir {
            names_hang_together(self.tree);
            return Ok(Position { place, name: None });
        }
        let name = self.moved_name(from, component, spot)?;
        Ok(Position { place, name })
    }

    /// The host name of a directory to which a walk goes on.
    fn moved_name(
        &self,
        from: Position<P::Mount>,
        component: &Component<'_>,
        spot: Spot<P::Mount>,
    ) -> Result<Option<Bytes>, NoMemory>
        requires named { IsNamed self.now.tree.now from.place.host from.name }
        requires way { let around = surroundings_of P.number P.mounts Q.finds Q.leads self.now in
            IsWay around.space (numbered P.number from.place) (component_data component.now) (numbered P.number spot.place) spot.way }
        requires kind { let around = surroundings_of P.number P.mounts Q.finds Q.leads self.now in
            IsKind around.space spot.place.host spot.way true }
        ensures { IfOk result (λ name. IsNamed self.now.tree.now spot.place.host name) }
    {
        names_hang_together(self.tree);
        match spot.way {
            Way::Stays => Ok(from.name),
            Way::Rises => Ok(cut_name(from.name)),
            Way::Enters => entered(from.name, name_of(component)),
            Way::CrossesUp | Way::CrossesDown => directory_name(self.tree, ino_of(spot.place.host)),
        }
    }
}
