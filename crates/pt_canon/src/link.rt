//! Links of the process directory without a text of their own, by the names under which they stand, as proc(5) has them.
ghost use Rattle.std.specs.Prelude.{◌≡◌};
ghost use Rattle.pt_bind.specs.Binding.{IsWritten, names_of};
ghost use Rattle.pt_canon.specs.ProcessLinks.{number_in, descriptor_link, process_link_at, link_at};

use crate::guest::{below_root, parted};
use pt_bind::below::pr_base::are_digits;

/// A link of the process directory: what of which process it leads to.
#[derive(Clone, Copy)]
pub enum ProcessLink {
    /// The working directory of a process.
    Cwd(u32),
    /// The executable of a process.
    Exe(u32),
    /// The root of a process.
    Root(u32),
    /// What a process has open by a descriptor.
    Fd(u32, u32),
}

/// The number of 32 bits that digits spell; none for any other name.
fn number_in(name: &[u8]) -> Option<u32>
    ensures { result ≡ number_in name.now }
{
    if name.is_empty() || !are_digits(name) {
        return None;
    }
    let Ok(digits) = str::from_utf8(name) else {
        return None;
    };
    match digits.parse::<u32>() {
        Ok(number) => Some(number),
        Err(_) => None,
    }
}

/// The link of a descriptor, by the names of its process and its own.
fn descriptor_link(pid: &[u8], name: &[u8]) -> Option<ProcessLink>
    ensures { result ≡ descriptor_link pid.now name.now }
{
    let pid = number_in(pid)?;
    let fd = number_in(name)?;
    Some(ProcessLink::Fd(pid, fd))
}

/// The link of a name in a process's directory.
fn process_link(name: &[u8], pid: &[u8]) -> Option<ProcessLink>
    ensures { result ≡ process_link_at name.now pid.now }
{
    match name {
        b"cwd" => Some(ProcessLink::Cwd(number_in(pid)?)),
        b"exe" => Some(ProcessLink::Exe(number_in(pid)?)),
        b"root" => Some(ProcessLink::Root(number_in(pid)?)),
        _ => None,
    }
}

/// The link that stands at a host text where the kernel tells one.
pub(crate) fn link_at(host: &[u8]) -> Option<ProcessLink>
    requires { IsWritten host.now }
    ensures { result ≡ link_at (names_of host.now) }
{
    let (above, name) = parted(below_root(host))?;
    let (rest, up) = parted(above)?;
    if up != b"fd".as_slice() {
        return process_link(name, up);
    }
    let (_, pid) = parted(rest)?;
    descriptor_link(pid, name)
}
