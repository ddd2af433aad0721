//! Where the paths of a call begin.
ghost use Rattle.std.specs.Prelude.{◌≡◌, IfOk, IfSome};
ghost use Rattle.kr_calls.specs.PathTable.{path_use};
ghost use Rattle.pt_canon.specs.pt_bind.Binding.{IsWritten, rows_of};
ghost use Rattle.pt_canon.specs.Canon.{IsAnswer, texts_by};
ghost use Rattle.pt_args.specs.Bases.{base_of, descriptor_base, descriptor_number, is_working_directory, or_lost, tagged_text, working_base, working_text};
ghost use Rattle.pt_canon.specs.Leaving.{OnlyPeeks};

use crate::caller::Caller;
use kr_calls::PathArg;
use pt_canon::WalkErr;
use pt_canon::below::pr_base::limits::AT_FDCWD;
use pt_canon::below::pr_base::{BaseKind, Bytes, Errno, NoMemory, Peeks, components};
use pt_canon::below::pt_bind::{Table, Tags};

impl<'a> Caller<'a> {
    /// The guest text from which a path is taken: the root for an absolute one, else that of the working directory or of the
    /// directory that is open under its descriptor. `None` where no directory is open there, which the kernel finds by
    /// itself; ENOENT where a directory has no guest text.
    pub(crate) fn base_of<K: Peeks>(
        &self,
        kernel: &mut K,
        table: &Table,
        path: PathArg<'_>,
    ) -> Result<Option<Bytes>, WalkErr>
        ensures answer { let texts = texts_by table.now (K.peeked kernel.old) self.now.tags.now in
            IsAnswer (base_of texts self.now.pid (path_use path.entry)) result }
        ensures written { IfOk result (λ base. IfSome base IsWritten) }
        ensures unmet { K.unmet kernel.new ≡ K.unmet kernel.old }
        ensures kernel { OnlyPeeks K.peeked K.kept kernel.old kernel.new }
    {
        if components(path.text).absolute() {
            let root = Bytes::copy(self.alloc, b"/")?;
            return Ok(Some(root));
        }
        if is_working_directory(path.dirfd) {
            return self.working_base(kernel, table);
        }
        match descriptor_number(path.dirfd) {
            Some(fd) => self.descriptor_base(kernel, table, fd),
            None => Ok(None),
        }
    }

    /// The working directory as a base.
    fn working_base<K: Peeks>(
        &self,
        kernel: &mut K,
        table: &Table,
    ) -> Result<Option<Bytes>, WalkErr>
        ensures answer { let texts = texts_by table.now (K.peeked kernel.old) self.now.tags.now in
            IsAnswer (working_base texts self.now.pid) result }
        ensures written { IfOk result (λ base. IfSome base IsWritten) }
        ensures unmet { K.unmet kernel.new ≡ K.unmet kernel.old }
        ensures kernel { OnlyPeeks K.peeked K.kept kernel.old kernel.new }
    {
        let text = working_text(kernel, table, self.tags, self.pid)?;
        or_lost(text)
    }

    /// The directory that is open under a descriptor as a base.
    fn descriptor_base<K: Peeks>(
        &self,
        kernel: &mut K,
        table: &Table,
        fd: u32,
    ) -> Result<Option<Bytes>, WalkErr>
        ensures answer { let texts = texts_by table.now (K.peeked kernel.old) self.now.tags.now in
            IsAnswer (descriptor_base texts self.now.pid fd ((K.peeked kernel.old).base_kind self.now.pid fd)) result }
        ensures written { IfOk result (λ base. IfSome base IsWritten) }
        ensures unmet { K.unmet kernel.new ≡ K.unmet kernel.old }
        ensures kernel { OnlyPeeks K.peeked K.kept kernel.old kernel.new }
    {
        match kernel.base_kind(self.pid, fd) {
            BaseKind::Closed | BaseKind::Other => Ok(None),
            BaseKind::Dir => {
                let name = base_name(kernel, self.pid, fd)?;
                let text = tagged(table, self.tags.fd(self.pid, fd), name)?;
                or_lost(text)
            }
        }
    }
}

/// Whether the working directory is meant in place of a descriptor.
fn is_working_directory(dirfd: i32) -> bool
    ensures { result ≡ is_working_directory dirfd }
{
    dirfd == AT_FDCWD
}

/// The number of a descriptor, `None` exactly where it is negative.
fn descriptor_number(dirfd: i32) -> Option<u32>
    ensures { result ≡ descriptor_number dirfd }
{
    match u32::try_from(dirfd) {
        Ok(fd) => Some(fd),
        Err(_) => None,
    }
}

/// The guest text of a process's working directory; `None` exactly where it has none: the directory was removed, or it isn't
/// at or below the source of its tag's binding.
pub fn working_text<K: Peeks>(
    kernel: &mut K,
    table: &Table,
    tags: &Tags,
    pid: u32,
) -> Result<Option<Bytes>, NoMemory>
    ensures text { IfOk result (λ text. text ≡ working_text (texts_by table.now (K.peeked kernel.old) tags.now) pid) }
    ensures written { IfOk result (λ text. IfSome text IsWritten) }
    ensures unmet { K.unmet kernel.new ≡ K.unmet kernel.old }
    ensures kernel { OnlyPeeks K.peeked K.kept kernel.old kernel.new }
{
    let name = cwd_name(kernel, pid)?;
    tagged(table, tags.cwd(pid), name)
}

/// The host name of a working directory.
fn cwd_name<K: Peeks>(kernel: &mut K, pid: u32) -> Result<Option<Bytes>, NoMemory>
    ensures answer { IfOk result (λ name. name ≡ (K.peeked kernel.old).cwd_name pid) }
    ensures written { IfOk result (λ name. IfSome name IsWritten) }
    ensures unmet { K.unmet kernel.new ≡ K.unmet kernel.old }
    ensures kernel { OnlyPeeks K.peeked K.kept kernel.old kernel.new }
{
    kernel.cwd_name(pid)
}

/// The host name of what is open under a descriptor.
fn base_name<K: Peeks>(kernel: &mut K, pid: u32, fd: u32) -> Result<Option<Bytes>, NoMemory>
    ensures answer { IfOk result (λ name. name ≡ (K.peeked kernel.old).base_name pid fd) }
    ensures written { IfOk result (λ name. IfSome name IsWritten) }
    ensures unmet { K.unmet kernel.new ≡ K.unmet kernel.old }
    ensures kernel { OnlyPeeks K.peeked K.kept kernel.old kernel.new }
{
    kernel.base_name(pid, fd)
}

/// The guest text that a tag gives with a host name, if there is one.
fn tagged(table: &Table, tag: u32, name: Option<Bytes>) -> Result<Option<Bytes>, NoMemory>
    requires { IfSome name IsWritten }
    ensures text { IfOk result (λ text. text ≡ tagged_text (rows_of table.now) tag name) }
    ensures written { IfOk result (λ text. IfSome text IsWritten) }
{
    match name {
        Some(host) => table.guest_of(tag, host.as_slice()),
        None => Ok(None),
    }
}

/// A directory without a guest text is none that the guest could be in.
fn or_lost(text: Option<Bytes>) -> Result<Option<Bytes>, WalkErr>
    requires { IfSome text IsWritten }
    ensures answer { IsAnswer (or_lost text) result }
    ensures written { IfOk result (λ base. IfSome base IsWritten) }
{
    match text {
        Some(text) => Ok(Some(text)),
        None => Err(WalkErr::Err(Errno::ENOENT)),
    }
}
