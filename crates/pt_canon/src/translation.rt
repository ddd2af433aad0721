//! Looking at guest texts through the kernel that runs the process.
ghost use Rattle.std.specs.Prelude.{◌≡◌, ◌&&◌, true, Ok, IfOk, IfSome};
ghost use Rattle.std.specs.Option.{option_map};
ghost use Rattle.pt_bind.specs.pr_base.Paths.{components_of, text_of};
ghost use Rattle.pt_bind.specs.Binding.{IsWritten, guest_of, host_of, names_of, rows_of};
ghost use Rattle.pt_canon.specs.Canon.{IsWalkNoted};
ghost use Rattle.pt_canon.specs.Components.{straight};
ghost use Rattle.pt_canon.specs.Laws.{host_bytes};
ghost use Rattle.pt_canon.specs.ProcessLinks.{jump_at, landing_of, link_guest, link_name};
ghost use Rattle.pt_canon.specs.TextWalk.{seen_kind, seen_text};
ghost use Rattle.pt_canon.specs.Looks.{texts_in, led, IsKnown, IsEntered, IsSeen};
ghost use Rattle.pt_canon.specs.Steadily.{EntryNoted, IsSure, WasAsked, entered, known_ahead};
ghost use Rattle.pt_canon.specs.Leaving.{OnlyPeeks};

use crate::canon::WalkErr;
use crate::component::straight;
use crate::guest::Guest;
use crate::host::{find_directory, find_itself, is_steady, kind_at, link_text_at};
use crate::link::{ProcessLink, link_at};
use crate::sight::{Known, Sight, unseen};
use crate::sure::Sure;
use pt_bind::below::pr_base::{Bytes, NoMemory, PeekKind, Peeks};
use pt_bind::{Table, Tags};
use std::alloc::Global;

/// What a tracer translates texts by: its table of bindings and its tags.
#[derive(Clone, Copy)]
pub(crate) struct Translation<'a> {
    pub(crate) alloc: Global,
    pub(crate) table: &'a Table,
    pub(crate) tags: &'a Tags,
}

impl<'a> Translation<'a> {
    /// The host text of a guest text.
    pub(crate) fn host(&self, at: &Guest) -> Result<Bytes, NoMemory>
        ensures host { IfOk result (λ host. host ≡ text_of (host_of (rows_of self.now.table.now) at.now)) }
        ensures written { IfOk result IsWritten }
        ensures names { IfOk result (λ host. names_of host ≡ host_of (rows_of self.now.table.now) at.now) }
    {
        self.table.host_of(at.text())
    }

    /// Finds that a guest text is that of a directory which may be searched, or why nothing in it can be looked up.
    /// What is known of it isn't asked again.
    pub(crate) fn enter<K: Peeks>(
        &self,
        kernel: &mut K,
        at: &Guest,
        known: Known,
    ) -> Result<(), WalkErr>
        requires { IsKnown (texts_in self.now (K.peeked kernel.old)) at.now known }
        ensures answer { IsEntered (texts_in self.now (K.peeked kernel.old)) at.now result }
        ensures noted { let texts = texts_in self.now (K.peeked kernel.old) in
            WasAsked texts at.now known (K.unmet kernel.old) → EntryNoted texts at.now (K.unmet kernel.old) (K.unmet kernel.new) result }
        ensures kernel { OnlyPeeks K.peeked K.kept kernel.old kernel.new }
    {
        match known {
            Known::Open => Ok(()),
            Known::Directory => {
                let host = self.host(at)?;
                find_itself(self.alloc, kernel, host.as_slice())
            }
            Known::Nothing => {
                let host = self.host(at)?;
                find_directory(kernel, host.as_slice())?;
                find_itself(self.alloc, kernel, host.as_slice())
            }
        }
    }

    /// What is known ahead of a walk along a path, by whether it is steady so far. One host text is asked, that to which the path leads where no
    /// link stands on it; none where the walk isn't steady.
    pub(crate) fn ahead<K: Peeks>(
        &self,
        kernel: &mut K,
        at: &Guest,
        path: &[u8],
        steady: bool,
    ) -> Result<Sure, NoMemory>
        ensures ahead { let texts = texts_in self.now (K.peeked kernel.old) in
            IfOk result (λ sure. sure ≡ known_ahead texts steady (straight at.now (components_of path.now))) }
        ensures unmet { K.unmet kernel.new ≡ K.unmet kernel.old }
        ensures kernel { OnlyPeeks K.peeked K.kept kernel.old kernel.new }
    {
        if !steady {
            return Ok(Sure::nothing());
        }
        let text = straight(self.alloc, at, path)?;
        let host = self.host(&text)?;
        let told = is_steady(kernel, host.as_slice())?;
        Ok(Sure::by(host, told))
    }

    /// Whether a walk is steady still that looks into a guest text, by whether it is so far. Of what isn't steady nothing
    /// is asked, nor again what was asked before or is known.
    pub(crate) fn steady_in<K: Peeks>(
        &self,
        kernel: &mut K,
        at: &Guest,
        known: Known,
        steady: bool,
        sure: &Sure,
    ) -> Result<bool, NoMemory>
        requires asked { WasAsked (texts_in self.now (K.peeked kernel.old)) at.now known steady }
        requires sure { IsSure (K.peeked kernel.old) sure.now }
        ensures answer { IfOk result (λ still. still ≡ entered (texts_in self.now (K.peeked kernel.old)) steady at.now) }
        ensures unmet { K.unmet kernel.new ≡ K.unmet kernel.old }
        ensures kernel { OnlyPeeks K.peeked K.kept kernel.old kernel.new }
    {
        if !steady {
            return Ok(false);
        }
        match known {
            Known::Open => Ok(true),
            Known::Directory => {
                let host = self.host(at)?;
                sure.is_itself_steady(self.alloc, kernel, host.as_slice())
            }
            Known::Nothing => self.all_steady_in(kernel, at, sure),
        }
    }

    /// Whether a guest text is steady, and itself in it.
    fn all_steady_in<K: Peeks>(
        &self,
        kernel: &mut K,
        at: &Guest,
        sure: &Sure,
    ) -> Result<bool, NoMemory>
        requires { IsSure (K.peeked kernel.old) sure.now }
        ensures answer { IfOk result (λ still. still ≡ entered (texts_in self.now (K.peeked kernel.old)) true at.now) }
        ensures unmet { K.unmet kernel.new ≡ K.unmet kernel.old }
        ensures kernel { OnlyPeeks K.peeked K.kept kernel.old kernel.new }
    {
        let host = self.host(at)?;
        let steady = sure.is_steady(kernel, host.as_slice())?;
        if !steady {
            return Ok(false);
        }
        sure.is_itself_steady(self.alloc, kernel, host.as_slice())
    }

    /// Whether a walk is steady still that looks at a guest text, by whether it is so far.
    pub(crate) fn steady_at<K: Peeks>(
        &self,
        kernel: &mut K,
        at: &Guest,
        steady: bool,
        sure: &Sure,
    ) -> Result<bool, NoMemory>
        requires { IsSure (K.peeked kernel.old) sure.now }
        ensures answer { let texts = texts_in self.now (K.peeked kernel.old) in IfOk result (λ still. still ≡ (steady && texts.peeked.steady (host_bytes texts at.now))) }
        ensures unmet { K.unmet kernel.new ≡ K.unmet kernel.old }
        ensures kernel { OnlyPeeks K.peeked K.kept kernel.old kernel.new }
    {
        if !steady {
            return Ok(false);
        }
        let host = self.host(at)?;
        sure.is_steady(kernel, host.as_slice())
    }

    /// What stands at a guest text of which the directory may be searched.
    pub(crate) fn see<K: Peeks>(&self, kernel: &mut K, at: &Guest) -> Result<Sight, WalkErr>
        ensures answer { let texts = texts_in self.now (K.peeked kernel.old) in IsSeen texts at.now (seen_text texts at.now) result }
        ensures noted { let texts = texts_in self.now (K.peeked kernel.old) in
            IsWalkNoted (K.unmet kernel.old && texts.peeked.steady (host_bytes texts at.now)) (K.unmet kernel.new) result }
        ensures kernel { OnlyPeeks K.peeked K.kept kernel.old kernel.new }
    {
        let host = self.host(at)?;
        match kind_at(kernel, host.as_slice()) {
            Ok(kind) => self.sight_of(kernel, at, host.as_slice(), kind),
            Err(fault) => unseen(fault),
        }
    }

    /// What a guest text shows, by its host text and what stands there.
    fn sight_of<K: Peeks>(
        &self,
        kernel: &mut K,
        at: &Guest,
        host: &[u8],
        kind: PeekKind,
    ) -> Result<Sight, WalkErr>
        requires written { IsWritten host.now }
        requires host { host.now ≡ host_bytes (texts_in self.now (K.peeked kernel.old)) at.now }
        ensures answer { let texts = texts_in self.now (K.peeked kernel.old) in IsSeen texts at.now (seen_kind texts at.now (host_of texts.bindings at.now) (Ok kind)) result }
        ensures noted { WasAsked (texts_in self.now (K.peeked kernel.old)) at.now Known.Directory (K.unmet kernel.old)
            → IsWalkNoted (K.unmet kernel.old) (K.unmet kernel.new) result }
        ensures kernel { OnlyPeeks K.peeked K.kept kernel.old kernel.new }
    {
        match kind {
            PeekKind::Dir => Ok(Sight::Directory),
            PeekKind::File => Ok(Sight::File),
            PeekKind::Jump => Ok(Sight::Jumps),
            PeekKind::Link => {
                let text = link_text_at(kernel, host)?;
                Ok(Sight::Links(text))
            }
        }
    }

    /// Where a link of the process directory leads, by its guest text: to the guest text of its object, by the object's
    /// tag. `None` where there is none.
    pub(crate) fn lead<K: Peeks>(
        &self,
        kernel: &mut K,
        link: &Guest,
    ) -> Result<Option<Guest>, NoMemory>
        ensures answer { let texts = texts_in self.now (K.peeked kernel.old) in
            IfOk result (λ guest. guest ≡ led (jump_at texts.bindings texts.peeked texts.tags (host_of texts.bindings link.now))) }
        ensures unmet { K.unmet kernel.new ≡ K.unmet kernel.old }
        ensures kernel { OnlyPeeks K.peeked K.kept kernel.old kernel.new }
    {
        let host = self.host(link)?;
        match link_at(host.as_slice()) {
            Some(link) => self.lead_of(kernel, link),
            None => Ok(None),
        }
    }

    /// Where a link of the process directory leads.
    fn lead_of<K: Peeks>(
        &self,
        kernel: &mut K,
        link: ProcessLink,
    ) -> Result<Option<Guest>, NoMemory>
        ensures answer { let texts = texts_in self.now (K.peeked kernel.old) in
            IfOk result (λ guest. guest ≡ led (landing_of texts.bindings texts.peeked texts.tags link)) }
        ensures unmet { K.unmet kernel.new ≡ K.unmet kernel.old }
        ensures kernel { OnlyPeeks K.peeked K.kept kernel.old kernel.new }
    {
        match link_name(self.alloc, kernel, link)? {
            Some(name) => self.guest_of(link, name.as_slice()),
            None => Ok(None),
        }
    }

    /// The guest text of what a link of the process directory leads to, by its host name.
    fn guest_of(&self, link: ProcessLink, name: &[u8]) -> Result<Option<Guest>, NoMemory>
        requires { IsWritten name.now }
        ensures { IfOk result (λ guest. guest ≡ link_guest (rows_of self.now.table.now) self.now.tags.now link (names_of name.now)) }
    {
        match link {
            ProcessLink::Cwd(pid) => self.tagged(self.tags.cwd(pid), name),
            ProcessLink::Exe(pid) => self.tagged(self.tags.exe(pid), name),
            ProcessLink::Root(_) => Ok(Some(Guest::root(self.alloc))),
            ProcessLink::Fd(pid, fd) => self.tagged(self.tags.fd(pid, fd), name),
        }
    }

    /// The guest text that a tag and a host name give, if they give one.
    fn tagged(&self, tag: u32, name: &[u8]) -> Result<Option<Guest>, NoMemory>
        requires { IsWritten name.now }
        ensures { IfOk result (λ guest. guest ≡ guest_of (rows_of self.now.table.now) tag (names_of name.now)) }
    {
        match self.table.guest_of(tag, name)? {
            Some(guest) => Ok(Some(Guest::of(self.alloc, guest.as_slice())?)),
            None => Ok(None),
        }
    }
}

/// The host name of what a link of the process directory leads to, if that has one.
fn link_name<K: Peeks>(
    alloc: Global,
    kernel: &mut K,
    link: ProcessLink,
) -> Result<Option<Bytes>, NoMemory>
    ensures name { IfOk result (λ name. option_map names_of name ≡ link_name (K.peeked kernel.old) link) }
    ensures written { IfOk result (λ name. IfSome name IsWritten) }
    ensures unmet { K.unmet kernel.new ≡ K.unmet kernel.old }
    ensures kernel { OnlyPeeks K.peeked K.kept kernel.old kernel.new }
{
    match link {
        ProcessLink::Cwd(pid) => kernel.cwd_name(pid),
        ProcessLink::Exe(pid) => kernel.exe_name(pid),
        ProcessLink::Root(_) => Ok(Some(Bytes::copy(alloc, b"/")?)),
        ProcessLink::Fd(pid, fd) => kernel.base_name(pid, fd),
    }
}
