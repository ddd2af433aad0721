//! Walks along paths.
ghost use Rattle.std.specs.Prelude.{◌≡◌, ◌≢◌, ℕ, ◌≤◌, ◌+◌, ◌*◌, ◌^◌, [], ◌||◌, ◌&&◌, not, length, true, IfOk};
ghost use Rattle.std.specs.Option.{option_map};
ghost use Rattle.kr_view.specs.kr_tree.pr_base.declared.path.WalkMode.{WalkMode};
ghost use Rattle.kr_view.specs.kr_tree.pr_base.WalkFrame.{is_followed, wants_directory, may_be_free, target_at, ends_landed, begins_at, name_of};
ghost use Rattle.kr_view.specs.Leads.{numbered};
ghost use Rattle.kr_walk.specs.Components.{component_data};
ghost use Rattle.kr_walk.specs.Stacks.{stack_of, taken_bytes};
ghost use Rattle.kr_view.specs.kr_tree.pr_base.Paths.{Component as PathComponent, component_of, has_slash};
ghost use Rattle.kr_view.specs.kr_tree.declared.place.Place.{Place};
ghost use Rattle.kr_walk.specs.Sights.{surroundings_of, sight_seen};
ghost use Rattle.kr_walk.specs.Ways.{HasKind, IsSightWay};
ghost use Rattle.kr_walk.specs.Positions.{IsNamed};
ghost use Rattle.kr_view.specs.Component.{look_up, landing};
ghost use Rattle.kr_view.specs.Names.{free_name, landing_name};
ghost use Rattle.kr_view.specs.Walk.{surroundings, place_walk, looking};
ghost use Rattle.kr_view.specs.Reach.{text_length, names_entry, named_entry, noted, end_reach, reached_landing};
ghost use Rattle.kr_view.specs.Answers.{told, target_numbered, IsAnswer, IsReached};
ghost use Rattle.kr_walk.specs.Steps.{trail_of, rest_behind, left_in_middle, left_at_last, left_by_jump, left_by_last_jump, here_target, work, IsFollowed, IsLanded, IsOutcome, HasLess};
ghost use Rattle.kr_view.specs.Answers.{HasReached};

use crate::component::{Component, component_of, kind_of, name_of};
use crate::name::{bytes_of, directory_name, entry_length, length_of};
use crate::position::Position;
use crate::rest::Rest;
use crate::rests::{Rests, Taken};
use crate::surroundings::{Sight, Surroundings};
use kr_view::below::kr_tree::{Host, Ino, Place, ProcAt, Tree, User};
use kr_view::below::pr_base::limits::MOST_LINKS;
use kr_view::below::pr_base::{Bytes, Errno, Last, NoMemory, WalkMode, components};
use kr_view::{Lead, Places, Procs, Reach, Target, WalkFault};
use std::alloc::Global;

/// A walk on its way: where it stands, the paths of which components are left, how many links it may still
/// follow, and whether a slash stands behind the last component.
#[derive(Drop)]
pub(crate) struct Walk<M> {
    pub(crate) position: Position<M>,
    pub(crate) rests: Rests,
    pub(crate) left: u32,
    pub(crate) slash: bool,
}

/// What comes of a step.
#[derive(Drop)]
pub(crate) enum Step<M> {
    Goes(Walk<M>),
    Ends(Target<M>),
}

/// Whether a link is followed as the last component.
fn is_followed(mode: WalkMode, slash: bool) -> bool
    ensures { result ≡ is_followed mode slash }
{
    match mode {
        WalkMode::Look | WalkMode::Open => true,
        WalkMode::LookLink => slash,
        WalkMode::Name => false,
    }
}

/// Whether the last component must be a directory.
fn wants_directory(mode: WalkMode, slash: bool) -> bool
    ensures { result ≡ wants_directory mode slash }
{
    match mode {
        WalkMode::Look | WalkMode::LookLink => slash,
        WalkMode::Name | WalkMode::Open => false,
    }
}

/// Whether the last component must be a directory and is none.
fn is_refused(mode: WalkMode, slash: bool, is_dir: bool) -> bool
    ensures { result ≡ (wants_directory mode slash && not is_dir) }
{
    wants_directory(mode, slash) && !is_dir
}

/// Whether the last component may be missing.
fn may_be_free(mode: WalkMode) -> bool
    ensures { result ≡ may_be_free mode }
{
    match mode {
        WalkMode::Look | WalkMode::LookLink => false,
        WalkMode::Name | WalkMode::Open => true,
    }
}

/// Whether a walk comes to the entry itself, whatever is shown in its place.
fn names_entry(mode: WalkMode, is_last: bool) -> bool
    ensures { result ≡ names_entry mode is_last }
{
    match mode {
        WalkMode::Look | WalkMode::LookLink | WalkMode::Open => false,
        WalkMode::Name => is_last,
    }
}

/// Whether a slash stands behind a last component that was a link with a text: one behind the text counts, too.
fn slash_behind(slash: bool, text: &[u8]) -> bool
    ensures { result ≡ (slash || has_slash text.now) }
{
    slash || components(text).slash()
}

/// Resolves a path, as path_resolution(7) says: where it leads from a base, over a view of the mounts and
/// what the processes show to the caller. What the walk reaches is added to `reach`, also where it ends
/// with an error; after NoMemory a part of it.
pub fn resolve<P: Places, Q: Procs<Mount = P::Mount>>(
    alloc: Global,
    places: &P,
    procs: &Q,
    tree: &Tree,
    user: User,
    caller: u32,
    base: Place<P::Mount>,
    path: &[u8],
    mode: WalkMode,
    reach: &mut Reach,
) -> Result<Target<P::Mount>, WalkFault>
    ensures answer { let around = surroundings P.number (P.mounts places.now) tree.now user (Q.finds procs.now caller) (Q.leads procs.now caller) in
        IsAnswer P.number (place_walk around mode (numbered P.number base) path.now).answer result }
    ensures reach { let around = surroundings P.number (P.mounts places.now) tree.now user (Q.finds procs.now caller) (Q.leads procs.now caller) in
        IsReached around mode (place_walk around mode (numbered P.number base) path.now) reach.old reach.new result }
{
    let surroundings = Surroundings {
        alloc,
        places,
        procs,
        tree,
        user,
        caller,
    };
    let mut walk = surroundings.begin(base, path)?;
    'steps: loop {
        match surroundings.step(walk, mode, reach)? {
            Step::Goes(on) => walk = on,
            Step::Ends(target) => return Ok(target),
        }
    }
}

impl<'a, P: Places, Q: Procs<Mount = P::Mount>> Surroundings<'a, P, Q> {
    /// A walk before its first step.
    fn begin(&self, base: Place<P::Mount>, path: &[u8]) -> Result<Walk<P::Mount>, NoMemory>
        ensures trail { let around = surroundings_of P.number P.mounts Q.finds Q.leads self.now in
            IfOk result (λ walk. (mode : WalkMode) → trail_of P.number around mode walk ≡ place_walk around mode (numbered P.number base) path.now) }
        ensures named { IfOk result (λ walk. IsNamed self.now.tree.now walk.position.place.host walk.position.name) }
    {
        let parts = components(path);
        let start = if parts.absolute() {
            self.places.root()
        } else {
            base
        };
        let mut rests = Rests::new(self.alloc);
        rests.push(Rest::new(Bytes::copy(self.alloc, path)?))?;
        Ok(Walk {
            position: self.position(start)?,
            rests,
            left: MOST_LINKS,
            slash: parts.slash(),
        })
    }

    /// One step of a walk: it reads a component and looks at it.
    fn step(
        &self,
        walk: Walk<P::Mount>,
        mode: WalkMode,
        reach: &mut Reach,
    ) -> Result<Step<P::Mount>, WalkFault>
        requires named { IsNamed self.now.tree.now walk.position.place.host walk.position.name }
        ensures outcome { let around = surroundings_of P.number P.mounts Q.finds Q.leads self.now in
            IsOutcome P.number around mode (trail_of P.number around mode walk) reach.old reach.new result }
        ensures less { HasLess (work walk) result }
    {
        let mut walk = walk;
        let Some(taken) = walk.rests.next() else {
            return Ok(Step::Ends(self.end_here(&walk, reach)));
        };
        let component = component_of(taken.bytes());
        let sight = self.look_up(walk.position.place(), &component);
        let is_last = walk.rests.none_behind(&taken);
        let by_name = names_entry(mode, is_last);
        self.note(&walk.position, &component, &sight, by_name, reach)?;
        if is_last {
            self.at_last(walk, &taken, &sight, mode, reach)
        } else {
            self.in_middle(walk, taken, &sight, reach)
        }
    }

    /// Where a path, or the text of a link, has no component, the walk ends where that begins.
    fn end_here(&self, walk: &Walk<P::Mount>, reach: &mut Reach) -> Target<P::Mount>
        requires named { IsNamed self.now.tree.now walk.now.position.place.host walk.now.position.name }
        ensures answer { told (here_target (numbered P.number walk.now.position.place) walk.now.slash) ≡ target_numbered P.number result }
        ensures reach { let around = surroundings_of P.number P.mounts Q.finds Q.leads self.now in
            reach.new ≡ end_reach around.space (Ok (here_target (numbered P.number walk.now.position.place) walk.now.slash)) reach.old }
    {
        let place = walk.position.place;
        reach.raise(length_of(self.object_bytes(place.host, &walk.position.name)));
        Target {
            dir: place,
            name: Bytes::new(self.alloc),
            last: Last::Root,
            slash: walk.slash,
            found: Some(place),
        }
    }

    /// Notes what a look-up reaches, with the entry itself where the path names that.
    fn note(
        &self,
        position: &Position<P::Mount>,
        component: &Component<'_>,
        sight: &Sight<'_, P::Mount>,
        by_name: bool,
        reach: &mut Reach,
    ) -> Result<(), NoMemory>
        requires named { IsNamed self.now.tree.now position.now.place.host position.now.name }
        requires seen { let around = surroundings_of P.number P.mounts Q.finds Q.leads self.now in
            sight_seen P.number around sight.now ≡ look_up around (numbered P.number position.now.place) (component_data component.now) }
        requires way { let around = surroundings_of P.number P.mounts Q.finds Q.leads self.now in
            IsSightWay P.number around.space (numbered P.number position.now.place) (component_data component.now) sight.now }
        ensures { let around = surroundings_of P.number P.mounts Q.finds Q.leads self.now in
            HasReached (noted around by_name (numbered P.number position.now.place) (component_data component.now) reach.old) reach.old reach.new result }
    {
        let place = position.place;
        reach.raise(length_of(self.object_bytes(place.host, &position.name)));
        reach.meet(self.meets_processes(place, component));
        if let Some(spot) = sight.spot() {
            reach.raise(self.shown_length(position, component, spot)?);
            reach.raise(self.named_length(position, component, by_name));
        }
        Ok(())
    }

    /// Behind a component that others follow.
    fn in_middle(
        &self,
        walk: Walk<P::Mount>,
        taken: Taken,
        sight: &Sight<'a, P::Mount>,
        reach: &mut Reach,
    ) -> Result<Step<P::Mount>, WalkFault>
        requires named { IsNamed self.now.tree.now walk.position.place.host walk.position.name }
        requires way { let around = surroundings_of P.number P.mounts Q.finds Q.leads self.now in
            IsSightWay P.number around.space (numbered P.number walk.position.place) (component_of (taken_bytes taken)) sight.now }
        requires kind { let around = surroundings_of P.number P.mounts Q.finds Q.leads self.now in
            HasKind around.space sight.now }
        requires more { rest_behind taken walk ≢ [] }
        ensures outcome { let around = surroundings_of P.number P.mounts Q.finds Q.leads self.now in
            (mode : WalkMode) → IsOutcome P.number around mode (left_in_middle P.number around mode walk taken sight.now) reach.old reach.new result }
        ensures less { HasLess (walk.left * 2 ^ 64 + length (rest_behind taken walk) + 1) result }
    {
        let mut walk = walk;
        match sight {
            Sight::Fails(errno) => Err(WalkFault::Err(*errno)),
            Sight::Missing => Err(WalkFault::Err(Errno::ENOENT)),
            Sight::Leads(spot, is_dir) => {
                let position = self.moved(
                    walk.position,
                    &component_of(taken.bytes()),
                    *spot,
                    *is_dir,
                )?;
                walk.rests.push(taken.into_rest())?;
                Ok(Step::Goes(Walk {
                    position,
                    rests: walk.rests,
                    left: walk.left,
                    slash: walk.slash,
                }))
            }
            Sight::Links(_, text) => {
                walk.rests.push(taken.into_rest())?;
                let slash = walk.slash;
                Ok(Step::Goes(self.follow(walk, text, slash)?))
            }
            Sight::Jumps(_, at) => {
                walk.rests.push(taken.into_rest())?;
                self.jump(walk, *at, reach)
            }
        }
    }

    /// Behind the last component.
    fn at_last(
        &self,
        walk: Walk<P::Mount>,
        taken: &Taken,
        sight: &Sight<'a, P::Mount>,
        mode: WalkMode,
        reach: &mut Reach,
    ) -> Result<Step<P::Mount>, WalkFault>
        requires named { IsNamed self.now.tree.now walk.position.place.host walk.position.name }
        requires seen { let around = surroundings_of P.number P.mounts Q.finds Q.leads self.now in
            sight_seen P.number around sight.now ≡ look_up around (numbered P.number walk.position.place) (component_of (taken_bytes taken.now)) }
        requires none { stack_of walk.rests ≡ [] }
        ensures outcome { let around = surroundings_of P.number P.mounts Q.finds Q.leads self.now in
            IsOutcome P.number around mode (left_at_last P.number around mode walk taken.now sight.now) reach.old reach.new result }
        ensures less { HasLess (walk.left * 2 ^ 64 + 1) result }
    {
        let component = component_of(taken.bytes());
        let dir = walk.position.place();
        match sight {
            Sight::Fails(errno) => Err(WalkFault::Err(*errno)),
            Sight::Missing => {
                if !may_be_free(mode) {
                    return Err(WalkFault::Err(Errno::ENOENT));
                }
                let target = self.target(dir, &component, walk.slash, None)?;
                reach.raise(self.free_length(&walk.position, &component));
                Ok(Step::Ends(target))
            }
            Sight::Leads(spot, is_dir) => {
                if is_refused(mode, walk.slash, *is_dir) {
                    return Err(WalkFault::Err(Errno::ENOTDIR));
                }
                Ok(Step::Ends(self.target(dir, &component, walk.slash, Some(spot.place))?))
            }
            Sight::Links(spot, text) => {
                if !is_followed(mode, walk.slash) {
                    return Ok(Step::Ends(self.target(
                        dir,
                        &component,
                        walk.slash,
                        Some(spot.place),
                    )?));
                }
                let slash = slash_behind(walk.slash, text);
                Ok(Step::Goes(self.follow(walk, text, slash)?))
            }
            Sight::Jumps(spot, at) => {
                if !is_followed(mode, walk.slash) {
                    return Ok(Step::Ends(self.target(
                        dir,
                        &component,
                        walk.slash,
                        Some(spot.place),
                    )?));
                }
                self.jump_last(walk, *at, mode, reach)
            }
        }
    }

    /// The last component as it stands in its directory.
    fn target(
        &self,
        dir: Place<P::Mount>,
        component: &Component<'_>,
        slash: bool,
        found: Option<Place<P::Mount>>,
    ) -> Result<Target<P::Mount>, NoMemory>
        ensures { IfOk result (λ target.
            told (target_at (numbered P.number dir) (component_data component.now) slash (option_map (numbered P.number) found)) ≡ target_numbered P.number target) }
    {
        Ok(Target {
            dir,
            name: Bytes::copy(self.alloc, name_of(component))?,
            last: kind_of(component),
            slash,
            found,
        })
    }

    /// The length of the host name of an entry itself, where the path names that.
    fn named_length(
        &self,
        position: &Position<P::Mount>,
        component: &Component<'_>,
        by_name: bool,
    ) -> Option<u64>
        requires named { IsNamed self.now.tree.now position.now.place.host position.now.name }
        requires short { length (name_of (component_data component.now)) ≤ 255 }
        ensures { let around = surroundings_of P.number P.mounts Q.finds Q.leads self.now in
            result ≡ option_map text_length (named_entry around.space by_name position.now.place.host (component_data component.now)) }
    {
        if !by_name {
            return None;
        }
        match component {
            Component::Dot | Component::DotDot => None,
            Component::Name(_) => self.free_length(position, component),
        }
    }

    /// The length of the host name of a free name.
    fn free_length(&self, position: &Position<P::Mount>, component: &Component<'_>) -> Option<u64>
        requires named { IsNamed self.now.tree.now position.now.place.host position.now.name }
        requires short { length (name_of (component_data component.now)) ≤ 255 }
        ensures { let around = surroundings_of P.number P.mounts Q.finds Q.leads self.now in
            result ≡ option_map text_length (free_name around.space position.now.place.host (name_of (component_data component.now))) }
    {
        let bytes = self.object_bytes(position.place.host, &position.name);
        entry_length(bytes, name_of(component))
    }

    /// The walk behind a link that is followed: the components of its text come before the rest.
    fn follow(
        &self,
        walk: Walk<P::Mount>,
        text: &[u8],
        slash: bool,
    ) -> Result<Walk<P::Mount>, WalkFault>
        requires named { IsNamed self.now.tree.now walk.position.place.host walk.position.name }
        ensures { let around = surroundings_of P.number P.mounts Q.finds Q.leads self.now in
            IsFollowed P.number around walk text.now slash result }
    {
        let Walk {
            position,
            mut rests,
            left,
            slash: _,
        } = walk;
        if left == 0 {
            return Err(WalkFault::Err(Errno::ELOOP));
        }
        rests.push(Rest::new(Bytes::copy(self.alloc, text)?))?;
        let position = self.beginning(position, text)?;
        Ok(Walk {
            position,
            rests,
            left: left - 1,
            slash,
        })
    }

    /// Where a path, or the text of a link, begins.
    fn beginning(
        &self,
        position: Position<P::Mount>,
        path: &[u8],
    ) -> Result<Position<P::Mount>, NoMemory>
        requires named { IsNamed self.now.tree.now position.place.host position.name }
        ensures place { let around = surroundings_of P.number P.mounts Q.finds Q.leads self.now in
            IfOk result (λ beginning. numbered P.number beginning.place ≡ begins_at (looking around) (numbered P.number position.place) path.now) }
        ensures named { IfOk result (λ beginning. IsNamed self.now.tree.now beginning.place.host beginning.name) }
    {
        if components(path).absolute() {
            self.position(self.places.root())
        } else {
            Ok(position)
        }
    }

    /// The walk behind a link of the process directory that others follow.
    fn jump(
        &self,
        walk: Walk<P::Mount>,
        at: ProcAt,
        reach: &mut Reach,
    ) -> Result<Step<P::Mount>, WalkFault>
        requires named { IsNamed self.now.tree.now walk.position.place.host walk.position.name }
        requires more { stack_of walk.rests ≢ [] }
        ensures outcome { let around = surroundings_of P.number P.mounts Q.finds Q.leads self.now in
            (mode : WalkMode) (link : Place ℕ) → IsOutcome P.number around mode (left_by_jump P.number around mode walk at link) reach.old reach.new result }
        ensures less { HasLess (work walk) result }
    {
        if walk.left == 0 {
            return Err(WalkFault::Err(Errno::ELOOP));
        }
        match self.procs.lead(self.caller, at)? {
            Lead::Text(text) => {
                let slash = walk.slash;
                Ok(Step::Goes(self.follow(walk, text.as_slice(), slash)?))
            }
            Lead::Jump { place, dir, name } => {
                let position = self.position(place)?;
                self.land(place, dir, name.as_slice(), reach)?;
                Ok(Step::Goes(Walk {
                    position,
                    rests: walk.rests,
                    left: walk.left - 1,
                    slash: walk.slash,
                }))
            }
            Lead::Nameless | Lead::NoLink => Err(WalkFault::Err(Errno::ENOENT)),
        }
    }

    /// Behind a link of the process directory as the last component. What it leads to isn't looked at again.
    fn jump_last(
        &self,
        walk: Walk<P::Mount>,
        at: ProcAt,
        mode: WalkMode,
        reach: &mut Reach,
    ) -> Result<Step<P::Mount>, WalkFault>
        requires named { IsNamed self.now.tree.now walk.position.place.host walk.position.name }
        requires none { stack_of walk.rests ≡ [] }
        requires followed { is_followed mode walk.slash ≡ true }
        ensures outcome { let around = surroundings_of P.number P.mounts Q.finds Q.leads self.now in
            (link : Place ℕ) (c : PathComponent) → IsOutcome P.number around mode (left_by_last_jump P.number around mode walk at link c) reach.old reach.new result }
        ensures less { HasLess (work walk) result }
    {
        if walk.left == 0 {
            return Err(WalkFault::Err(Errno::ELOOP));
        }
        match self.procs.lead(self.caller, at)? {
            Lead::Text(text) => {
                let slash = slash_behind(walk.slash, text.as_slice());
                Ok(Step::Goes(self.follow(walk, text.as_slice(), slash)?))
            }
            Lead::Jump { place, dir, name } => {
                self.land(place, dir, name.as_slice(), reach)?;
                Ok(Step::Ends(self.landed(place, dir, name, walk.slash, mode)?))
            }
            Lead::Nameless | Lead::NoLink => Err(WalkFault::Err(Errno::ENOENT)),
        }
    }

    /// Notes where a link of the process directory leads.
    fn land(
        &self,
        place: Place<P::Mount>,
        dir: Ino,
        name: &[u8],
        reach: &mut Reach,
    ) -> Result<(), NoMemory>
        ensures { let around = surroundings_of P.number P.mounts Q.finds Q.leads self.now in
            HasReached (reached_landing around.space (landing around.space (numbered P.number place) dir name.now) reach.old) reach.old reach.new result }
    {
        let length = self.landing_length(place, dir, name)?;
        reach.raise(length);
        Ok(())
    }

    /// The length of the host name of what a link of the process directory leads to.
    fn landing_length(
        &self,
        place: Place<P::Mount>,
        dir: Ino,
        name: &[u8],
    ) -> Result<Option<u64>, NoMemory>
        ensures { let around = surroundings_of P.number P.mounts Q.finds Q.leads self.now in
            IfOk result (λ length. length ≡ option_map text_length (landing_name around.space (landing around.space (numbered P.number place) dir name.now))) }
    {
        if self.is_directory(place.host) {
            return self.length_by_tree(place);
        }
        let above = directory_name(self.tree, dir)?;
        Ok(entry_length(bytes_of(&above), name))
    }

    /// The target to which a link of the process directory leads as the last component: a directory itself, and
    /// a file with the directory and name that its object remembers.
    fn landed(
        &self,
        place: Place<P::Mount>,
        dir: Ino,
        name: Bytes,
        slash: bool,
        mode: WalkMode,
    ) -> Result<Target<P::Mount>, WalkFault>
        ensures { let around = surroundings_of P.number P.mounts Q.finds Q.leads self.now in
            IsLanded P.number (ends_landed mode slash (landing around.space (numbered P.number place) dir name)).answer result }
    {
        if self.is_directory(place.host) {
            return Ok(Target {
                dir: place,
                name: Bytes::new(self.alloc),
                last: Last::Name,
                slash,
                found: Some(place),
            });
        }
        if wants_directory(mode, slash) {
            return Err(WalkFault::Err(Errno::ENOTDIR));
        }
        Ok(Target {
            dir: Place {
                mount: place.mount,
                host: Host::Node(dir),
            },
            name,
            last: Last::Name,
            slash,
            found: Some(place),
        })
    }
}
