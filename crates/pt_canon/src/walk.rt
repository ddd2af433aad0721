//! Walks along paths, over guest texts.
ghost use Rattle.std.specs.Prelude.{◌≡◌, ℕ, List, [], ◌++◌, ◌∷◌, true, false, Some, IfOk};
ghost use Rattle.pt_bind.specs.pr_base.Paths.{Dot, DotDot, Name, slash, components_of, has_slash, IsComponent};
ghost use Rattle.pt_bind.specs.pr_base.WalkFrame.{Missing, Leads, Links, is_followed, wants_directory, may_be_free, target_at};
ghost use Rattle.pt_bind.specs.pr_base.declared.path.Last.TheVariants as last;
ghost use Rattle.pt_bind.specs.Binding.{IsWritten, host_of, names_of, rows_of};
ghost use Rattle.pt_canon.specs.Canon.{canon_at, ending_of, IsAnswer, IsWalkNoted};
ghost use Rattle.pt_canon.specs.Components.{component_data};
ghost use Rattle.pt_canon.specs.ProcessLinks.{above, jump_at};
ghost use Rattle.pt_canon.specs.TextWalk.{TextSurroundings, look_text, seen_text, text_walk};
ghost use Rattle.pt_canon.specs.Looks.{texts_in, sight_seen, IsKnown};
ghost use Rattle.pt_canon.specs.declared.sight.Sight.TheVariants as sights;
ghost use Rattle.pt_canon.specs.Steadily.{IsSure, WasAsked, behind_looks, looked};
ghost use Rattle.pt_canon.specs.Steps.{ended, left_on, middle_trail, last_trail, start_of, told, IsFollowed, IsJumped, IsPassed, IsWay, PassedNoted, WayComes};
ghost use Rattle.pt_canon.specs.Leaving.{OnlyPeeks};

use crate::canon::{Canon, WalkErr};
use crate::component::{Component, component_of};
use crate::ending::{Ended, Ending};
use crate::guest::Guest;
use crate::host::is_directory;
use crate::sight::{Known, Sight};
use crate::sure::Sure;
use crate::translation::Translation;
use pt_bind::below::pr_base::limits::MOST_LINKS;
use pt_bind::below::pr_base::{Bytes, Errno, Last, NoMemory, Peeks, WalkMode, components};
use std::alloc::Global;

/// Where a walk goes on behind a link that it followed: from which guest text along which path, whether a slash
/// stands behind the last component, and whether the walk is steady so far.
#[derive(Drop)]
pub(crate) struct Onward {
    pub(crate) at: Guest,
    pub(crate) path: Bytes,
    pub(crate) slash: bool,
    pub(crate) steady: bool,
}

/// What comes of a path up to its end, or up to the first link that is followed.
#[derive(Drop)]
pub(crate) enum Way {
    Ends(Ended),
    Goes(Onward),
}

/// What comes of a component that others follow: the walk goes on along the same path, steady so far or not, or behind
/// a link.
#[derive(Drop)]
pub(crate) enum Passed {
    On(Guest, Known, bool),
    Off(Onward),
}

/// What a walk goes by along one path.
#[derive(Clone, Copy)]
pub(crate) struct Terms {
    pub(crate) mode: WalkMode,
    /// How many links may still be followed.
    pub(crate) left: u32,
    /// A slash stands behind the last component.
    pub(crate) slash: bool,
    /// The walk is steady so far, and that is asked at all.
    pub(crate) steady: bool,
}

/// Whether a link is followed as the last component.
fn is_followed(mode: WalkMode, slash: bool) -> bool
    ensures { result ≡ is_followed mode slash }
{
    match mode {
        WalkMode::Look | WalkMode::Open => true,
        WalkMode::LookLink => slash,
        WalkMode::Name => false,
    }
}

/// Whether the last component must be a directory.
fn wants_directory(mode: WalkMode, slash: bool) -> bool
    ensures { result ≡ wants_directory mode slash }
{
    match mode {
        WalkMode::Look | WalkMode::LookLink => slash,
        WalkMode::Name | WalkMode::Open => false,
    }
}

/// Whether the last component may be missing.
fn may_be_free(mode: WalkMode) -> bool
    ensures { result ≡ may_be_free mode }
{
    match mode {
        WalkMode::Look | WalkMode::LookLink => false,
        WalkMode::Name | WalkMode::Open => true,
    }
}

/// A path without a component ends where it begins. Where a name may be free, none was asked for.
fn ends_here(at: Guest, terms: Terms) -> Ended
    ensures { result ≡ record { ending = ending_of terms.mode (record { dir = at; name = []; last = last.Root; slash = terms.slash; found = Some at; jumped = false }); steady = terms.steady } }
{
    let ending = Ending {
        guest: at,
        last: Last::Root,
        slash: terms.slash,
        exists: !may_be_free(terms.mode),
    };
    Ended {
        ending,
        steady: terms.steady,
    }
}

/// A last `.`. Where a name may be free, none was asked for.
fn ends_at_dot(at: Guest, terms: Terms) -> Ended
    ensures { result ≡ record { ending = ending_of terms.mode (target_at at Dot terms.slash (Some at)); steady = terms.steady } }
{
    let ending = Ending {
        guest: at,
        last: Last::Dot,
        slash: terms.slash,
        exists: !may_be_free(terms.mode),
    };
    Ended {
        ending,
        steady: terms.steady,
    }
}

/// A last `..`. Where a name may be free, none was asked for, and the directory is the one in which it stands.
fn ends_at_dot_dot(at: Guest, terms: Terms) -> Ended
    ensures { result ≡ record { ending = ending_of terms.mode (target_at at DotDot terms.slash (Some (above at))); steady = terms.steady } }
{
    let free = may_be_free(terms.mode);
    let ending = Ending {
        guest: if free { at } else { at.above() },
        last: Last::DotDot,
        slash: terms.slash,
        exists: !free,
    };
    Ended {
        ending,
        steady: terms.steady,
    }
}

/// A last name, by the guest text of what stands there or could.
fn ends_at_name(guest: Guest, terms: Terms, exists: bool) -> Ended
    ensures { result ≡ record { ending = record { guest = guest; last = last.Name; slash = terms.slash; exists = exists }; steady = terms.steady } }
{
    let ending = Ending {
        guest,
        last: Last::Name,
        slash: terms.slash,
        exists,
    };
    Ended {
        ending,
        steady: terms.steady,
    }
}

impl<'a> Translation<'a> {
    /// Where a path leads from a guest text, and whether the walk is steady. That is asked only where `asks` says so; else
    /// none is.
    pub(crate) fn walk<K: Peeks>(
        &self,
        kernel: &mut K,
        base: &[u8],
        path: &[u8],
        mode: WalkMode,
        asks: bool,
    ) -> Result<Ended, WalkErr>
        requires { IsWritten base.now }
        ensures answer { let texts = texts_in self.now (K.peeked kernel.old) in
            IsAnswer (ended texts mode asks (text_walk texts mode (names_of base.now) path.now)).ends result }
        ensures noted { let texts = texts_in self.now (K.peeked kernel.old) in
            IsWalkNoted (behind_looks texts (K.unmet kernel.old) (text_walk texts mode (names_of base.now) path.now).looks) (K.unmet kernel.new) result }
        ensures kernel { OnlyPeeks K.peeked K.kept kernel.old kernel.new }
    {
        let mut onward = self.begin(base, path, asks)?;
        let mut left = MOST_LINKS;
        'links: loop {
            match self.along(kernel, onward, mode, left)? {
                Way::Ends(ended) => return Ok(ended),
                Way::Goes(on) => {
                    onward = on;
                    left -= 1;
                }
            }
        }
    }

    /// Where a walk begins.
    fn begin(&self, base: &[u8], path: &[u8], steady: bool) -> Result<Onward, NoMemory>
        requires { IsWritten base.now }
        ensures { IfOk result (λ onward. onward ≡ record { at = start_of (names_of base.now) path.now; path = path.now; slash = has_slash path.now; steady = steady }) }
    {
        let parts = components(path);
        let at = if parts.absolute() {
            Guest::root(self.alloc)
        } else {
            Guest::of(self.alloc, base)?
        };
        let path = Bytes::copy(self.alloc, path)?;
        Ok(Onward {
            at,
            path,
            slash: parts.slash(),
            steady,
        })
    }

    /// Goes along a path up to its end, or up to the first link that is followed.
    fn along<K: Peeks>(
        &self,
        kernel: &mut K,
        onward: Onward,
        mode: WalkMode,
        left: u32,
    ) -> Result<Way, WalkErr>
        ensures answer { let texts = texts_in self.now (K.peeked kernel.old) in let trail = left_on texts mode left onward.at (components_of onward.path) onward.slash in
            WayComes texts mode left (told texts mode onward.steady (K.unmet kernel.old) trail) (K.unmet kernel.new) result }
        ensures kernel { OnlyPeeks K.peeked K.kept kernel.old kernel.new }
    {
        let Onward {
            mut at,
            path,
            slash,
            mut steady,
        } = onward;
        let mut known = Known::Nothing;
        let mut parts = components(path.as_slice()).into_iter();
        let Some(mut part) = parts.next() else {
            let terms = Terms {
                mode,
                left,
                slash,
                steady,
            };
            return Ok(Way::Ends(ends_here(at, terms)));
        };
        let sure = self.ahead(kernel, &at, path.as_slice(), steady)?;
        'parts: loop {
            let terms = Terms {
                mode,
                left,
                slash,
                steady,
            };
            let behind = parts.rest();
            let component = component_of(part);
            let Some(following) = parts.next() else {
                return self.at_last(kernel, at, known, component, terms, &sure);
            };
            match self.in_middle(kernel, at, known, component, behind, terms, &sure)? {
                Passed::On(on, found, still) => {
                    at = on;
                    known = found;
                    steady = still;
                    part = following;
                }
                Passed::Off(on) => return Ok(Way::Goes(on)),
            }
        }
    }

    /// Behind a component that others follow.
    fn in_middle<K: Peeks>(
        &self,
        kernel: &mut K,
        at: Guest,
        known: Known,
        component: Component<'_>,
        behind: &[u8],
        terms: Terms,
        sure: &Sure,
    ) -> Result<Passed, WalkErr>
        requires known { IsKnown (texts_in self.now (K.peeked kernel.old)) at known }
        requires asked { WasAsked (texts_in self.now (K.peeked kernel.old)) at known terms.steady }
        requires sure { IsSure (K.peeked kernel.old) sure.now }
        requires component { IsComponent (component_data component) }
        ensures answer { let texts = texts_in self.now (K.peeked kernel.old) in let rest = components_of behind.now in let c = component_data component.entry in
            IsPassed texts terms rest (looked texts terms.steady at c) (middle_trail texts terms at rest (look_text texts at c)) result }
        ensures noted { let texts = texts_in self.now (K.peeked kernel.old) in
            WasAsked texts at known (K.unmet kernel.old) → PassedNoted texts (looked texts (K.unmet kernel.old) at (component_data component.entry)) (K.unmet kernel.new) result }
        ensures kernel { OnlyPeeks K.peeked K.kept kernel.old kernel.new }
    {
        self.enter(kernel, &at, known)?;
        let steady = self.steady_in(kernel, &at, known, terms.steady, sure)?;
        match component {
            Component::Dot => Ok(Passed::On(at, Known::Open, steady)),
            Component::DotDot => Ok(Passed::On(at.above(), Known::Nothing, steady)),
            Component::Name(name) => {
                let entry = at.child(name)?;
                let still = self.steady_at(kernel, &entry, steady, sure)?;
                let sight = self.see(kernel, &entry)?;
                let ahead = Terms {
                    steady: still,
                    ..terms
                };
                self.pass(kernel, entry, sight, behind, ahead)
            }
        }
    }

    /// Behind what stands at a guest text, where components follow.
    fn pass<K: Peeks>(
        &self,
        kernel: &mut K,
        at: Guest,
        sight: Sight,
        behind: &[u8],
        terms: Terms,
    ) -> Result<Passed, WalkErr>
        requires seen { let texts = texts_in self.now (K.peeked kernel.old) in seen_text texts at ≡ sight_seen texts at sight }
        requires asked { WasAsked (texts_in self.now (K.peeked kernel.old)) at Known.Directory terms.steady }
        ensures answer { let texts = texts_in self.now (K.peeked kernel.old) in let rest = components_of behind.now in
            IsPassed texts terms rest terms.steady (middle_trail texts terms (above at) rest (sight_seen texts at sight)) result }
        ensures noted { let texts = texts_in self.now (K.peeked kernel.old) in
            WasAsked texts at Known.Directory (K.unmet kernel.old) → PassedNoted texts (K.unmet kernel.old) (K.unmet kernel.new) result }
        ensures kernel { OnlyPeeks K.peeked K.kept kernel.old kernel.new }
    {
        match sight {
            Sight::Missing => Err(WalkErr::Err(Errno::ENOENT)),
            Sight::Directory => Ok(Passed::On(at, Known::Directory, terms.steady)),
            Sight::File => Ok(Passed::On(at, Known::Nothing, terms.steady)),
            Sight::Links(text) => {
                let path = joined(self.alloc, text.as_slice(), behind)?;
                let start = follow(self.alloc, at, text.as_slice(), terms.left)?;
                Ok(Passed::Off(Onward {
                    at: start,
                    path,
                    slash: terms.slash,
                    steady: terms.steady,
                }))
            }
            Sight::Jumps => {
                let path = Bytes::copy(self.alloc, behind)?;
                let guest = self.jump(kernel, &at, terms.left)?;
                Ok(Passed::Off(Onward {
                    at: guest,
                    path,
                    slash: terms.slash,
                    steady: terms.steady,
                }))
            }
        }
    }

    /// Behind the last component.
    fn at_last<K: Peeks>(
        &self,
        kernel: &mut K,
        at: Guest,
        known: Known,
        component: Component<'_>,
        terms: Terms,
        sure: &Sure,
    ) -> Result<Way, WalkErr>
        requires known { IsKnown (texts_in self.now (K.peeked kernel.old)) at known }
        requires asked { WasAsked (texts_in self.now (K.peeked kernel.old)) at known terms.steady }
        requires sure { IsSure (K.peeked kernel.old) sure.now }
        requires component { IsComponent (component_data component) }
        ensures answer { let texts = texts_in self.now (K.peeked kernel.old) in let c = component_data component.entry in
            IsWay texts terms.mode terms.left (looked texts terms.steady at c) (last_trail texts terms at c (look_text texts at c)) result }
        ensures noted { let texts = texts_in self.now (K.peeked kernel.old) in
            WasAsked texts at known (K.unmet kernel.old) → IsWalkNoted (looked texts (K.unmet kernel.old) at (component_data component.entry)) (K.unmet kernel.new) result }
        ensures kernel { OnlyPeeks K.peeked K.kept kernel.old kernel.new }
    {
        self.enter(kernel, &at, known)?;
        let steady = self.steady_in(kernel, &at, known, terms.steady, sure)?;
        let here = Terms { steady, ..terms };
        match component {
            Component::Dot => Ok(Way::Ends(ends_at_dot(at, here))),
            Component::DotDot => Ok(Way::Ends(ends_at_dot_dot(at, here))),
            Component::Name(name) => {
                let entry = at.child(name)?;
                let still = self.steady_at(kernel, &entry, steady, sure)?;
                let sight = self.see(kernel, &entry)?;
                let there = Terms {
                    steady: still,
                    ..terms
                };
                self.arrive(kernel, entry, sight, there)
            }
        }
    }

    /// At the guest text of a last name.
    fn arrive<K: Peeks>(
        &self,
        kernel: &mut K,
        at: Guest,
        sight: Sight,
        terms: Terms,
    ) -> Result<Way, WalkErr>
        ensures answer { let texts = texts_in self.now (K.peeked kernel.old) in (dir : List (List ℕ)) (name : List ℕ) → at ≡ name ∷ dir
            → IsWay texts terms.mode terms.left terms.steady (last_trail texts terms dir (Name name) (sight_seen texts at sight)) result }
        ensures noted { (sight ≡ Sight.Jumps → K.unmet kernel.old ≡ false) → IsWalkNoted (K.unmet kernel.old) (K.unmet kernel.new) result }
        ensures kernel { OnlyPeeks K.peeked K.kept kernel.old kernel.new }
    {
        match sight {
            Sight::Missing => arrive_free(at, terms),
            Sight::Directory => arrive_found(at, true, terms),
            Sight::File => arrive_found(at, false, terms),
            Sight::Links(text) => arrive_link(self.alloc, at, text, terms),
            Sight::Jumps => {
                if is_followed(terms.mode, terms.slash) {
                    self.land(kernel, &at, terms)
                } else {
                    Ok(Way::Ends(ends_at_name(at, terms, true)))
                }
            }
        }
    }

    /// Where a link of the process directory leads. It takes one of the links that are left, before it is found to
    /// lead nowhere.
    fn jump<K: Peeks>(&self, kernel: &mut K, link: &Guest, left: u32) -> Result<Guest, WalkErr>
        ensures answer { let texts = texts_in self.now (K.peeked kernel.old) in
            IsJumped left (jump_at texts.bindings texts.peeked texts.tags (host_of texts.bindings link.now)) result }
        ensures unmet { K.unmet kernel.new ≡ K.unmet kernel.old }
        ensures kernel { OnlyPeeks K.peeked K.kept kernel.old kernel.new }
    {
        if left == 0 {
            return Err(WalkErr::Err(Errno::ELOOP));
        }
        match self.lead(kernel, link)? {
            Some(guest) => Ok(guest),
            None => Err(WalkErr::Err(Errno::ENOENT)),
        }
    }

    /// Behind a link of the process directory as the last component. What it leads to isn't looked up again, but a
    /// slash asks for a directory.
    fn land<K: Peeks>(&self, kernel: &mut K, link: &Guest, terms: Terms) -> Result<Way, WalkErr>
        requires { is_followed terms.mode terms.slash ≡ true }
        ensures answer { let texts = texts_in self.now (K.peeked kernel.old) in (dir : List (List ℕ)) (name : List ℕ) →
            IsWay texts terms.mode terms.left terms.steady (last_trail texts terms dir (Name name) (sight_seen texts link.now Sight.Jumps)) result }
        ensures noted { K.unmet kernel.old ≡ false → IsWalkNoted (K.unmet kernel.old) (K.unmet kernel.new) result }
        ensures kernel { OnlyPeeks K.peeked K.kept kernel.old kernel.new }
    {
        let guest = self.jump(kernel, link, terms.left)?;
        if !wants_directory(terms.mode, terms.slash) {
            return Ok(Way::Ends(ends_at_name(guest, terms, true)));
        }
        let host = self.host(&guest)?;
        let is_dir = is_directory(kernel, host.as_slice())?;
        if !is_dir {
            return Err(WalkErr::Err(Errno::ENOTDIR));
        }
        Ok(Way::Ends(ends_at_name(guest, terms, true)))
    }

    /// What a tracer answers of where a walk ends.
    pub(crate) fn canon(&self, ending: &Ending) -> Result<Canon, NoMemory>
        ensures canon { IfOk result (λ canon. canon ≡ canon_at (rows_of self.now.table.now) ending.now) }
        ensures guest { IfOk result (λ canon. IsWritten canon.guest) }
    {
        let guest = Bytes::copy(self.alloc, ending.guest.text())?;
        let host = self.table.host_of(guest.as_slice())?;
        let index = self.table.index_of(guest.as_slice());
        Ok(Canon {
            guest,
            host,
            index,
            last: ending.last,
            slash: ending.slash,
            exists: ending.exists,
        })
    }
}

/// At a last name that is free.
fn arrive_free(at: Guest, terms: Terms) -> Result<Way, WalkErr>
    ensures { (texts : TextSurroundings) (dir : List (List ℕ)) (name : List ℕ) → at ≡ name ∷ dir
        → IsWay texts terms.mode terms.left terms.steady (last_trail texts terms dir (Name name) Missing) result }
{
    if may_be_free(terms.mode) {
        Ok(Way::Ends(ends_at_name(at, terms, false)))
    } else {
        Err(WalkErr::Err(Errno::ENOENT))
    }
}

/// At a last name at which no link stands.
fn arrive_found(at: Guest, is_dir: bool, terms: Terms) -> Result<Way, WalkErr>
    ensures { (texts : TextSurroundings) (dir : List (List ℕ)) (name : List ℕ)
        → IsWay texts terms.mode terms.left terms.steady (last_trail texts terms dir (Name name) (Leads is_dir at at)) result }
{
    if wants_directory(terms.mode, terms.slash) && !is_dir {
        Err(WalkErr::Err(Errno::ENOTDIR))
    } else {
        Ok(Way::Ends(ends_at_name(at, terms, true)))
    }
}

/// At a last name at which a link with a text stands. Where it is followed, a slash behind its text counts as one
/// behind the path.
fn arrive_link(alloc: Global, at: Guest, text: Bytes, terms: Terms) -> Result<Way, WalkErr>
    ensures { (texts : TextSurroundings) (name : List ℕ)
        → IsWay texts terms.mode terms.left terms.steady (last_trail texts terms (above at) (Name name) (Links at text)) result }
{
    if !is_followed(terms.mode, terms.slash) {
        return Ok(Way::Ends(ends_at_name(at, terms, true)));
    }
    let slash = terms.slash || components(text.as_slice()).slash();
    let start = follow(alloc, at, text.as_slice(), terms.left)?;
    Ok(Way::Goes(Onward {
        at: start,
        path: text,
        slash,
        steady: terms.steady,
    }))
}

/// Where the text of a link that is followed begins: at the root, or in the link's directory.
fn follow(alloc: Global, link: Guest, text: &[u8], left: u32) -> Result<Guest, WalkErr>
    ensures { IsFollowed left (start_of (above link) text.now) result }
{
    if left == 0 {
        return Err(WalkErr::Err(Errno::ELOOP));
    }
    if components(text).absolute() {
        Ok(Guest::root(alloc))
    } else {
        Ok(link.above())
    }
}

/// The path of a link's text with what stood behind the link.
fn joined(alloc: Global, text: &[u8], behind: &[u8]) -> Result<Bytes, NoMemory>
    ensures { IfOk result (λ path. path ≡ text.now ++ slash ∷ behind.now) }
{
    let mut path = Bytes::copy(alloc, text)?;
    path.append(b"/")?;
    path.append(behind)?;
    Ok(path)
}
