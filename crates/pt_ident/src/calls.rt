//! The calls on users and groups.
ghost use Rattle.std.specs.Prelude.{◌≡◌, ℕ, option_map, pos};
ghost use Rattle.pt_ident.specs.declared.calls.IdAnswer.TheVariants.{Value};
ghost use Rattle.pt_ident.specs.Answering.{answer_of, identity_behind, identity_of, seen};
ghost use Rattle.pt_ident.specs.Identity.{effect, get_groups, keeps_group, keeps_user, natural, refusal, set_groups, tells};

use crate::ids::{EFFECTIVE, Ids, REAL};
use crate::setting::{set_one, set_three, set_two};
use kr_calls::Request;
use kr_inode::below::pr_base::Errno;

/// What is answered, as far as it is known before the memory of the process is looked at.
#[derive(Clone, Copy)]
pub enum IdAnswer {
    /// This number, which is the negated one of an error where the call is refused.
    Value(i64),
    /// 0, and these numbers are written to the three addresses of the request; EFAULT unless all can be.
    Three([u32; 3]),
    /// Their number, and the groups are written to the address of the request; EFAULT unless they can be.
    Groups,
    /// 0, and as many groups as the request says are read from its address and kept; EFAULT unless they can be.
    SetGroups,
}

/// The largest number of groups that setgroups(2) takes.
const MOST_GROUPS: u32 = 65536;

/// Answers a call on users and groups, and keeps what it sets; `None`, and nothing is changed, exactly for any other request.
pub fn answer(ids: &mut Ids, request: &Request) -> Option<IdAnswer>
    ensures answer { result ≡ option_map answer_of (effect ids.old request.now) }
    ensures identity { ids.new ≡ identity_behind ids.old (effect ids.old request.now) }
{
    let privileged = ids.is_privileged();
    let user = ids.user();
    let group = ids.group();
    match *request {
        Request::Getuid => Some(value(user[REAL])),
        Request::Geteuid => Some(value(user[EFFECTIVE])),
        Request::Getgid => Some(value(group[REAL])),
        Request::Getegid => Some(value(group[EFFECTIVE])),
        Request::Getresuid { .. } => Some(IdAnswer::Three(user)),
        Request::Getresgid { .. } => Some(IdAnswer::Three(group)),
        Request::Setuid { uid } => Some(keep_user(ids, set_one(user, privileged, uid))),
        Request::Setgid { gid } => Some(keep_group(ids, set_one(group, privileged, gid))),
        Request::Setreuid { ruid, euid } => {
            Some(keep_user(ids, set_two(user, privileged, ruid, euid)))
        }
        Request::Setregid { rgid, egid } => {
            Some(keep_group(ids, set_two(group, privileged, rgid, egid)))
        }
        Request::Setresuid { ruid, euid, suid } => {
            Some(keep_user(ids, set_three(user, privileged, ruid, euid, suid)))
        }
        Request::Setresgid { rgid, egid, sgid } => {
            Some(keep_group(ids, set_three(group, privileged, rgid, egid, sgid)))
        }
        Request::Getgroups { size, .. } => Some(get_groups(ids, natural(size))),
        Request::Setgroups { size, .. } => Some(set_groups(ids, natural(size))),
        _ => None,
    }
}

/// A number.
fn value(number: u32) -> IdAnswer
    ensures { result ≡ Value (pos number) }
{
    IdAnswer::Value(i64::from(number))
}

/// The negated number of an error.
fn refused(errno: Errno) -> IdAnswer
    ensures { result ≡ Value (refusal errno) }
{
    IdAnswer::Value(-i64::from(errno.number()))
}

/// Keeps the numbers of the user that a call sets, unless it is refused.
fn keep_user(ids: &mut Ids, set: Result<[u32; 3], Errno>) -> IdAnswer
    ensures answer { result ≡ answer_of (keeps_user ids.old (seen set)) }
    ensures identity { ids.new ≡ identity_of ids.old (keeps_user ids.old (seen set)) }
{
    match set {
        Ok(user) => {
            ids.set_user(user);
            value(0)
        }
        Err(errno) => refused(errno),
    }
}

/// Keeps the numbers of the group that a call sets, unless it is refused.
fn keep_group(ids: &mut Ids, set: Result<[u32; 3], Errno>) -> IdAnswer
    ensures answer { result ≡ answer_of (keeps_group ids.old (seen set)) }
    ensures identity { ids.new ≡ identity_of ids.old (keeps_group ids.old (seen set)) }
{
    match set {
        Ok(group) => {
            ids.set_group(group);
            value(0)
        }
        Err(errno) => refused(errno),
    }
}

/// A size that isn't negative.
fn natural(size: i32) -> Option<u32>
    ensures { result ≡ natural size }
{
    u32::try_from(size).ok()
}

/// getgroups(2): the size 0 asks for the number of groups; EINVAL of a negative size, and of one that is too small.
fn get_groups(ids: &Ids, size: Option<u32>) -> IdAnswer
    ensures answer { (list : ℕ) → result ≡ answer_of (get_groups ids.now size list) }
    ensures identity { (list : ℕ) → identity_of ids.now (get_groups ids.now size list) ≡ ids.now }
{
    let Some(size) = size else {
        return refused(Errno::EINVAL);
    };
    let count = ids.groups().len() as u32;
    if size == 0 {
        value(count)
    } else if size < count {
        refused(Errno::EINVAL)
    } else {
        IdAnswer::Groups
    }
}

/// setgroups(2): EPERM without privilege; EINVAL of a negative size, and of one that is too large.
fn set_groups(ids: &Ids, size: Option<u32>) -> IdAnswer
    ensures answer { (list : ℕ) → result ≡ answer_of (set_groups ids.now size list) }
    ensures identity { (list : ℕ) → identity_of ids.now (set_groups ids.now size list) ≡ ids.now }
{
    if !ids.is_privileged() {
        return refused(Errno::EPERM);
    }
    match size {
        Some(size) if size <= MOST_GROUPS => IdAnswer::SetGroups,
        _ => refused(Errno::EINVAL),
    }
}
