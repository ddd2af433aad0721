//! Where mounts stand: the way of a location's names through the mounts before it.
ghost use Rattle.std.specs.Prelude.{◌≡◌, ◌&&◌, ◌∷◌, None, true, [], IfOk};
ghost use Rattle.std.specs.List.{All};
ghost use Rattle.pt_bind.specs.Binding.{IsWritten};
ghost use Rattle.kr_walk.specs.kr_view.View.{root_source};
ghost use Rattle.kr_walk.specs.kr_tree.Tree.{body_is, entry, takes_names};
ghost use Rattle.kr_walk.specs.kr_tree.Rights.{may};
ghost use Rattle.kr_walk.specs.kr_tree.Names.{is_name};
ghost use Rattle.kr_walk.specs.kr_inode.declared.user.Right.TheVariants.{Write, Search};
ghost use Rattle.kr_walk.specs.kr_inode.Stored.{body_of_new};
ghost use Rattle.kr_walk.specs.kr_view.Laws.{is_link};
ghost use Rattle.pt_bind.specs.pr_base.Paths.{IsPart, parts_of};
ghost use Rattle.kr_mounts.specs.Growth.{IsGrown};
ghost use Rattle.kr_mounts.specs.Points.{at_entry, fits, new_body, new_mode, way};
ghost use Rattle.kr_mounts.specs.Stored.{table_of};
ghost use Rattle.kr_mounts.specs.Ways.{HasNumbers, IsEnded, IsEntered, IsMade, IsPut, IsReached, IsSpotOf, entering, wanted_of, way_of};

use crate::fault::BindWhy;
use crate::location::Stop;
use crate::mount::MountPoint;
use crate::mounted::{MountNumber, Mounted};
use kr_walk::below::{
    Host, Ino, Meta, Node, Place, Places, Right, Tree, TreeRefusal, User, is_name, trees_are_kept,
};
use pt_bind::below::pr_base::{Bytes, components};
use std::alloc::Global;

/// What stands at a mount point: whether the source is a directory, and whether a last link is kept.
#[derive(Clone, Copy)]
pub(crate) struct Wanted {
    pub(crate) is_dir: bool,
    pub(crate) keep: bool,
}

/// Where a way stands: at an inode in a mount.
#[derive(Clone, Copy)]
struct Foot {
    mount: MountNumber,
    inode: Ino,
}

/// The mounts that stand so far, and the user who makes missing names.
#[derive(Clone, Copy)]
pub(crate) struct Way<'a> {
    pub(crate) alloc: Global,
    pub(crate) mounted: &'a Mounted,
    pub(crate) user: User,
}

impl<'a> Way<'a> {
    /// The mount point of a location, to which its names lead from the guest's root.
    pub(crate) fn along(
        &self,
        tree: &mut Tree,
        location: &[u8],
        wanted: Wanted,
    ) -> Result<MountPoint, Stop>
        requires numbers { HasNumbers tree.old }
        requires text { IsWritten location.now }
        ensures point { IsEnded (way_of self.now.user (table_of self.now.mounted.now) (wanted_of wanted) tree.old (parts_of location.now)) tree.new result }
        ensures part { IfOk result (λ p. IsPart p.name) }
        ensures grown { IsGrown self.now.user tree.old tree.new }
        ensures numbers { HasNumbers tree.new }
    {
        let mut parts = components(location).into_iter();
        match parts.next() {
            Some(name) => self.along_names(tree, name, parts.rest(), wanted),
            None => Err(Stop::Bad(BindWhy::AtRoot)),
        }
    }

    /// The mount point of a location that begins with the name `first`; `others` is what stands behind it.
    fn along_names(
        &self,
        tree: &mut Tree,
        first: &[u8],
        others: &[u8],
        wanted: Wanted,
    ) -> Result<MountPoint, Stop>
        requires numbers { HasNumbers tree.old }
        requires first { IsPart first.now }
        requires others { All IsPart (parts_of others.now) }
        ensures point { IsEnded (way_of self.now.user (table_of self.now.mounted.now) (wanted_of wanted) tree.old (first.now ∷ parts_of others.now)) tree.new result }
        ensures part { IfOk result (λ p. IsPart p.name) }
        ensures grown { IsGrown self.now.user tree.old tree.new }
        ensures numbers { HasNumbers tree.new }
    {
        let mut parts = components(others).into_iter();
        let mut foot = self.start();
        let mut name = first;
        while let Some(next) = parts.next() {
            foot = self.enter(tree, foot, name)?;
            name = next;
        }
        self.end(tree, foot, name, wanted)
    }

    /// The guest's root.
    fn start(&self) -> Foot
        ensures mount { result.mount.number ≡ 0 }
        ensures inode { result.inode ≡ root_source (table_of self.now.mounted.now) }
    {
        let root = self.mounted.root();
        match root.host {
            Host::Node(inode) => Foot {
                mount: root.mount,
                inode,
            },
            // All sources are inodes.
            Host::Proc(inode, _at) => Foot {
                mount: root.mount,
                inode,
            },
        }
    }

    /// Through a name behind which others come.
    fn enter(&self, tree: &mut Tree, foot: Foot, name: &[u8]) -> Result<Foot, Stop>
        requires { HasNumbers tree.old }
        ensures entered { IsEntered (entering self.now.user (table_of self.now.mounted.now) tree.old foot.mount.number foot.inode name.now) tree.new result }
        ensures grown { IsGrown self.now.user tree.old tree.new }
        ensures numbers { HasNumbers tree.new }
    {
        if !tree.takes_names(foot.inode) {
            return Err(Stop::Bad(BindWhy::NoPoint));
        }
        match self.mounted.down(foot.mount, foot.inode, name) {
            Some(place) => match foot_at(place) {
                Some(entered) => Ok(entered),
                None => Err(Stop::Bad(BindWhy::NoPoint)),
            },
            None => self.enter_entry(tree, foot, name),
        }
    }

    /// Through a name at which no mount stands.
    fn enter_entry(&self, tree: &mut Tree, foot: Foot, name: &[u8]) -> Result<Foot, Stop>
        requires numbers { HasNumbers tree.old }
        requires takes { body_is takes_names tree.old foot.inode ≡ true }
        ensures entered { IsEntered (at_entry tree.old self.now.user foot.mount.number foot.inode name.now (entry tree.old foot.inode name.now)) tree.new result }
        ensures grown { IsGrown self.now.user tree.old tree.new }
        ensures numbers { HasNumbers tree.new }
    {
        match tree.entry(foot.inode, name) {
            Some(inode) => {
                if is_link(tree, inode) {
                    return Err(Stop::Bad(BindWhy::LinkOnTheWay));
                }
                Ok(Foot {
                    mount: foot.mount,
                    inode,
                })
            }
            None => {
                let inode = self.make(tree, foot.inode, name, true)?;
                Ok(Foot {
                    mount: foot.mount,
                    inode,
                })
            }
        }
    }

    /// At the last name.
    fn end(
        &self,
        tree: &mut Tree,
        foot: Foot,
        name: &[u8],
        wanted: Wanted,
    ) -> Result<MountPoint, Stop>
        requires { HasNumbers tree.old }
        ensures point { IsEnded (way self.now.user (table_of self.now.mounted.now) (wanted_of wanted) tree.old foot.mount.number foot.inode name.now []) tree.new result }
        ensures name { IfOk result (λ p. p.name ≡ name.now) }
        ensures grown { IsGrown self.now.user tree.old tree.new }
        ensures numbers { HasNumbers tree.new }
    {
        self.at_last(tree, foot, name, wanted)?;
        let name = Bytes::copy(self.alloc, name)?;
        Ok(MountPoint {
            mount: foot.mount.number(),
            dir: foot.inode,
            name,
        })
    }

    /// At the last name, which must fit what is mounted there, or is made.
    fn at_last(&self, tree: &mut Tree, foot: Foot, name: &[u8], wanted: Wanted) -> Result<(), Stop>
        requires { HasNumbers tree.old }
        ensures reached { IsReached (way self.now.user (table_of self.now.mounted.now) (wanted_of wanted) tree.old foot.mount.number foot.inode name.now []) (record { mount = foot.mount.number; dir = foot.inode; name = name.now }) tree.new result }
        ensures grown { IsGrown self.now.user tree.old tree.new }
        ensures numbers { HasNumbers tree.new }
    {
        if !tree.takes_names(foot.inode) {
            return Err(Stop::Bad(BindWhy::NoPoint));
        }
        match tree.entry(foot.inode, name) {
            Some(inode) => match misfit(tree, inode, wanted) {
                Some(why) => Err(Stop::Bad(why)),
                None => Ok(()),
            },
            None => {
                self.make(tree, foot.inode, name, wanted.is_dir)?;
                Ok(())
            }
        }
    }

    /// Makes a missing name, if the user may and no limit is passed.
    fn make(&self, tree: &mut Tree, dir: Ino, name: &[u8], is_dir: bool) -> Result<Ino, Stop>
        requires numbers { HasNumbers tree.old }
        requires takes { body_is takes_names tree.old dir ≡ true }
        requires free { entry tree.old dir name.now ≡ None }
        ensures made { IsMade self.now.user tree.old dir name.now is_dir tree.new result }
        ensures grown { IsGrown self.now.user tree.old tree.new }
        ensures numbers { HasNumbers tree.new }
    {
        trees_are_kept(tree);
        if !may_put(tree, self.user, dir, name) {
            return Err(Stop::Bad(BindWhy::NoPoint));
        }
        self.put(tree, dir, name, is_dir)
    }

    /// Puts a new directory or file under a missing name, if no limit is passed.
    fn put(&self, tree: &mut Tree, dir: Ino, name: &[u8], is_dir: bool) -> Result<Ino, Stop>
        requires numbers { HasNumbers tree.old }
        requires takes { body_is takes_names tree.old dir ≡ true }
        requires free { entry tree.old dir name.now ≡ None }
        requires name { is_name name.now ≡ true }
        ensures { IsPut self.now.user tree.old dir name.now is_dir tree.new result }
    {
        trees_are_kept(tree);
        let node = new_node(self.alloc, is_dir);
        let mode = new_mode(is_dir);
        let meta = Meta {
            mode,
            uid: self.user.uid,
            gid: self.user.gid,
            names: 0,
            size: 0,
        };
        match tree.add(dir, name, node, meta) {
            Ok(inode) => Ok(inode),
            Err(TreeRefusal::Full) => Err(Stop::Bad(BindWhy::NoPoint)),
            Err(TreeRefusal::TooBig) => Err(Stop::Bad(BindWhy::NoPoint)),
            Err(TreeRefusal::NoMemory) => Err(Stop::NoMemory),
        }
    }
}

/// Whether the user may put a name into a directory, and the name is one that an entry may have.
fn may_put(tree: &Tree, user: User, dir: Ino, name: &[u8]) -> bool
    ensures { result ≡ (is_name name.now && may tree.now user dir Write && may tree.now user dir Search) }
{
    is_name(name) && tree.may(user, dir, Right::Write) && tree.may(user, dir, Right::Search)
}

/// A place as an inode in a mount, if it is one.
fn foot_at(place: Place<MountNumber>) -> Option<Foot>
    ensures { IsSpotOf place result }
{
    match place.host {
        Host::Node(inode) => Some(Foot {
            mount: place.mount,
            inode,
        }),
        Host::Proc(_inode, _at) => None,
    }
}

/// The mode of a name that is made.
fn new_mode(is_dir: bool) -> u16
    ensures { result ≡ new_mode is_dir }
{
    if is_dir { 0o755 } else { 0o644 }
}

/// What is made at a name: a directory without entries, or a file without bytes.
fn new_node(alloc: Global, is_dir: bool) -> Node
    ensures { body_of_new result ≡ new_body is_dir }
{
    if is_dir {
        Node::Dir
    } else {
        Node::File(Bytes::new(alloc))
    }
}

/// Whether an inode is a link.
fn is_link(tree: &Tree, inode: Ino) -> bool
    ensures { result ≡ body_is is_link tree.now inode }
{
    tree.link_text(inode).is_some()
}

/// Why a mount may not stand on an object: it must be a directory on a directory, and no directory on another; on a
/// link any may stand, if that is kept.
fn misfit(tree: &Tree, inode: Ino, wanted: Wanted) -> Option<BindWhy>
    ensures { result ≡ fits tree.now (wanted_of wanted) inode }
{
    if is_link(tree, inode) {
        return if wanted.keep {
            None
        } else {
            Some(BindWhy::LinkOnTheWay)
        };
    }
    if tree.is_directory(inode) == wanted.is_dir {
        None
    } else {
        Some(BindWhy::Kind)
    }
}
