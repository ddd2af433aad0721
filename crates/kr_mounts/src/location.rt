//! Where bindings are located: their guest paths, resolved in the guest's root alone.
ghost use Rattle.std.specs.Prelude.{◌≡◌, ◌++◌, ◌&&◌, ◌||◌, not, IfOk};
ghost use Rattle.std.specs.Option.{option_map};
ghost use Rattle.pt_bind.specs.pr_base.Paths.{IsComponent, component_of, components_of, has_parts, has_slash, parts_of};
ghost use Rattle.pt_bind.specs.pr_base.WalkFrame.{begins_at};
ghost use Rattle.pt_bind.specs.Binding.{names_of};
ghost use Rattle.kr_walk.specs.kr_view.View.{node_in};
ghost use Rattle.kr_walk.specs.kr_view.Component.{above, inside, named};
ghost use Rattle.kr_mounts.specs.Locations.{Spot as SpotData, stepped, look_from, alone, locating, located_at, location_by, location_walked};
ghost use Rattle.kr_mounts.specs.Texts.{IsBelow};
ghost use Rattle.kr_mounts.specs.Spots.{spot_of, IsSight, IsShownAt, IsMoved, IsFollowed, IsStepped, IsLocated, location_left, location_from, alone_around, part_data};

use crate::fault::BindWhy;
use crate::text::{push_name, without_last};
use kr_walk::below::{Ino, Right, Tree, User, trees_are_kept};
use pt_bind::below::pr_base::limits::MOST_LINKS;
use pt_bind::below::pr_base::{Bytes, NoMemory, components, is_walked};
use std::alloc::Global;

/// Why a mount doesn't come about: the binding is refused, or memory ran out.
#[derive(Clone, Copy)]
pub(crate) enum Stop {
    Bad(BindWhy),
    NoMemory,
}

impl From<NoMemory> for Stop {
    ghost use Rattle.std.specs.Prelude.{◌≡◌};
    ghost use Rattle.kr_mounts.specs.declared.location.Stop.TheVariants.{NoMemory as StoppedForMemory};

    ghost from_gives = { λ error stop. stop ≡ StoppedForMemory };

    fn from(_error: NoMemory) -> Stop {
        Stop::NoMemory
    }
}

/// A component of a path.
#[derive(Clone, Copy)]
enum Part<'a> {
    Dot,
    DotDot,
    Name(&'a [u8]),
}

/// What a component shows.
#[derive(Clone, Copy)]
enum Shown<'a> {
    /// It can't be looked up.
    Fails,
    /// An inode that is no link; none where nothing is there, so that the text alone is kept from here on.
    Leads(Option<Ino>),
    /// A link with its text.
    Links(&'a [u8]),
}

/// Where a walk along a location stands: its guest text so far, as bytes below the root, and the inode while all of
/// it was found.
#[derive(Drop)]
struct Spot {
    text: Bytes,
    place: Option<Ino>,
}

/// A walk along a location on its way: where it stands, the path of the components that are left, how many links it
/// may still follow, and whether a slash stands behind the last component.
#[derive(Drop)]
struct Walk {
    spot: Spot,
    rest: Bytes,
    left: u32,
    slash: bool,
}

/// What comes of a walk up to the next link.
#[derive(Drop)]
enum Step {
    /// It follows the link.
    Goes(Walk),
    /// It ends at a text.
    Ends(Bytes),
}

/// The guest's root alone, and whether a last link is kept.
#[derive(Clone, Copy)]
pub(crate) struct Locating<'a> {
    pub(crate) alloc: Global,
    pub(crate) tree: &'a Tree,
    pub(crate) user: User,
    pub(crate) root: Ino,
    pub(crate) keep: bool,
}

impl<'a> Locating<'a> {
    /// The location of a guest path, as the bytes of its text. An empty path has none, nor one that is too long.
    pub(crate) fn locate(&self, path: &[u8]) -> Result<Bytes, Stop>
        ensures { IsLocated (location_by self.now.tree.now self.now.user self.now.root self.now.keep path.now) result }
    {
        if !is_walked(path) {
            return Err(Stop::Bad(BindWhy::NoPoint));
        }
        self.walked(path)
    }

    /// Where the walk of a guest path ends, as the bytes of its text.
    fn walked(&self, path: &[u8]) -> Result<Bytes, Stop>
        ensures { IsLocated (location_walked self.now.tree.now self.now.user self.now.root self.now.keep path.now) result }
    {
        let rest = Bytes::copy(self.alloc, path)?;
        let mut walk = Walk {
            spot: self.start(),
            rest,
            left: MOST_LINKS,
            slash: components(path).slash(),
        };
        'steps: loop {
            match self.step(walk)? {
                Step::Goes(on) => walk = on,
                Step::Ends(text) => return located(text),
            }
        }
    }

    /// The guest's root, where a walk begins.
    fn start(&self) -> Spot
        ensures spot { spot_of result ≡ (locating self.now.tree.now self.now.user (alone self.now.root)).root }
        ensures below { IsBelow result.text }
    {
        Spot {
            text: Bytes::new(self.alloc),
            place: Some(self.root),
        }
    }

    /// Along the components that are left, up to the next link that is followed.
    fn step(&self, walk: Walk) -> Result<Step, Stop>
        requires { IsBelow walk.spot.text }
        ensures { IsStepped self.now (location_left self.now walk) walk.left result }
    {
        let Walk {
            spot,
            rest: path,
            left,
            slash,
        } = walk;
        let mut spot = spot;
        let mut parts = components(path.as_slice()).into_iter();
        while let Some(part) = parts.next() {
            match self.look(spot.place, part) {
                Shown::Fails => return Err(Stop::Bad(BindWhy::NoPoint)),
                Shown::Leads(place) => spot = moved(spot, part, place)?,
                Shown::Links(target) => {
                    return self.at_link(spot, part, target, parts.rest(), left, slash);
                }
            }
        }
        Ok(Step::Ends(spot.text))
    }

    /// At a link, behind which a path is left: as the last component it may be kept, and else it is followed.
    fn at_link(
        &self,
        spot: Spot,
        part: &[u8],
        target: &[u8],
        behind: &[u8],
        left: u32,
        slash: bool,
    ) -> Result<Step, Stop>
        requires below { IsBelow spot.text }
        requires part { IsComponent (component_of part.now) }
        requires linked { IsSight (look_from self.now.tree.now self.now.user (alone self.now.root) (spot_of spot) (component_of part.now) (spot_of spot).place) (spot_of spot) (component_of part.now) (Shown.Links target) }
        ensures { IsStepped self.now (location_from self.now left (spot_of spot) (component_of part.now) (components_of behind.now) slash) left result }
    {
        let is_last = !has_parts(behind);
        if stays(is_last, self.keep, slash) {
            let spot = moved(spot, part, None)?;
            return Ok(Step::Ends(spot.text));
        }
        if left == 0 {
            return Err(Stop::Bad(BindWhy::NoPoint));
        }
        let slash = slash_behind(slash, is_last, target);
        let walk = self.follow(spot, target, behind, left - 1, slash)?;
        Ok(Step::Goes(walk))
    }

    /// Behind a link: the components of its text come before those that are left.
    fn follow(
        &self,
        spot: Spot,
        target: &[u8],
        behind: &[u8],
        left: u32,
        slash: bool,
    ) -> Result<Walk, NoMemory>
        requires { IsBelow spot.text }
        ensures { IsFollowed (begins_at (locating self.now.tree.now self.now.user (alone self.now.root)) (spot_of spot) target.now) (components_of target.now ++ components_of behind.now) left slash result }
    {
        let spot = self.begin(spot, target);
        let mut rest = Bytes::copy(self.alloc, target)?;
        rest.append(b"/")?;
        rest.append(behind)?;
        Ok(Walk {
            spot,
            rest,
            left,
            slash,
        })
    }

    /// Where the text of a link begins: at the guest's root, or where the link stands.
    fn begin(&self, spot: Spot, target: &[u8]) -> Spot
        requires { IsBelow spot.text }
        ensures spot { spot_of result ≡ begins_at (locating self.now.tree.now self.now.user (alone self.now.root)) (spot_of spot) target.now }
        ensures below { IsBelow result.text }
    {
        if components(target).absolute() {
            self.start()
        } else {
            spot
        }
    }

    /// What a component shows from an inode, if there is one.
    fn look(&self, place: Option<Ino>, part: &[u8]) -> Shown<'a>
        ensures { (spot : SpotData) → spot.place ≡ option_map (node_in 0) place →
            IsSight (look_from self.now.tree.now self.now.user (alone self.now.root) spot (component_of part.now) spot.place) spot (component_of part.now) result }
    {
        let Some(at) = place else {
            return Shown::Leads(None);
        };
        if !self.tree.is_directory(at) {
            return Shown::Leads(None);
        }
        if !self.tree.may(self.user, at, Right::Search) {
            return Shown::Fails;
        }
        self.inside(at, part)
    }

    /// What a component shows from a directory that may be searched.
    fn inside(&self, at: Ino, part: &[u8]) -> Shown<'a>
        ensures { IsShownAt (inside (alone_around self.now) (node_in 0 at) (component_of part.now)) result }
    {
        match part_of(part) {
            Part::Dot => Shown::Leads(Some(at)),
            Part::DotDot => self.above(at),
            Part::Name(name) => self.named(at, name),
        }
    }

    /// The directory above another; the root's is itself.
    fn above(&self, at: Ino) -> Shown<'a>
        ensures { IsShownAt (above (alone_around self.now).space (node_in 0 at)) result }
    {
        if at == self.root {
            return Shown::Leads(Some(at));
        }
        match self.tree.above(at) {
            Some(up) => Shown::Leads(Some(up)),
            None => Shown::Fails,
        }
    }

    /// An entry of a directory.
    fn named(&self, at: Ino, name: &[u8]) -> Shown<'a>
        ensures { IsShownAt (named (alone_around self.now) (node_in 0 at) name.now) result }
    {
        trees_are_kept(self.tree);
        if 255 < name.len() {
            return Shown::Fails;
        }
        let Some(inode) = self.tree.entry(at, name) else {
            return Shown::Leads(None);
        };
        match self.tree.link_text(inode) {
            Some(text) => Shown::Links(text),
            None => Shown::Leads(Some(inode)),
        }
    }
}

/// The text of a location, which isn't that of the root, by its bytes below the root.
fn located(text: Bytes) -> Result<Bytes, Stop>
    requires { IsBelow text }
    ensures { IsLocated (located_at (names_of text)) result }
{
    if text.is_empty() {
        return Err(Stop::Bad(BindWhy::AtRoot));
    }
    Ok(text)
}

/// Whether a path has a component.
fn has_parts(path: &[u8]) -> bool
    ensures { result ≡ has_parts (parts_of path.now) }
{
    match components(path).into_iter().next() {
        Some(_part) => true,
        None => false,
    }
}

/// Whether a link is the location itself: as the last component it is, where it is kept and no slash stands behind.
fn stays(is_last: bool, keep: bool, slash: bool) -> bool
    ensures { result ≡ (is_last && (keep && not slash)) }
{
    is_last && (keep && !slash)
}

/// Whether a slash stands behind the last component, where a link is followed: one behind the text of a last link
/// counts, too.
fn slash_behind(slash: bool, is_last: bool, target: &[u8]) -> bool
    ensures { result ≡ (slash || (is_last && has_slash target.now)) }
{
    slash || (is_last && components(target).slash())
}

/// Behind a component, at an inode if one is there.
fn moved(spot: Spot, part: &[u8], place: Option<Ino>) -> Result<Spot, NoMemory>
    requires below { IsBelow spot.text }
    requires part { IsComponent (component_of part.now) }
    ensures { IsMoved (stepped (spot_of spot).text (component_of part.now)) place result }
{
    let text = stepped(spot.text, part)?;
    Ok(Spot { text, place })
}

/// A text below the root with a component more: `.` is dropped, `..` drops a name.
fn stepped(text: Bytes, part: &[u8]) -> Result<Bytes, NoMemory>
    requires below { IsBelow text }
    requires part { IsComponent (component_of part.now) }
    ensures names { IfOk result (λ t. names_of t ≡ stepped (names_of text) (component_of part.now)) }
    ensures below { IfOk result IsBelow }
{
    match part_of(part) {
        Part::Dot => Ok(text),
        Part::DotDot => Ok(without_last(text)),
        Part::Name(name) => {
            let mut longer = text;
            push_name(&mut longer, name)?;
            Ok(longer)
        }
    }
}

/// What the bytes between two slashes are.
fn part_of(bytes: &[u8]) -> Part<'_>
    ensures { part_data result ≡ component_of bytes.now }
{
    if bytes == b".".as_slice() {
        Part::Dot
    } else if bytes == b"..".as_slice() {
        Part::DotDot
    } else {
        Part::Name(bytes)
    }
}
