//! Where in its memory a call on users and groups has what it reads or writes.
ghost use Rattle.std.specs.Prelude.{◌≡◌};
ghost use Rattle.pt_faker.specs.Asking.{group_list, number_places, sized_list};

use pt_ident::below::kr_calls::Request;

/// `count` groups, four bytes each, from the address `at` on.
#[derive(Clone, Copy)]
pub(crate) struct GroupList {
    pub(crate) count: u32,
    pub(crate) at: u64,
}

/// The addresses to which getresuid(2) and getresgid(2) write a real, an effective and a saved number.
pub(crate) fn number_places(request: &Request) -> Option<[u64; 3]>
    ensures { result ≡ number_places request.now }
{
    match *request {
        Request::Getresuid { ruid, euid, suid } => Some([ruid, euid, suid]),
        Request::Getresgid { rgid, egid, sgid } => Some([rgid, egid, sgid]),
        _ => None,
    }
}

/// The list of getgroups(2) and setgroups(2), unless its size is negative.
pub(crate) fn group_list(request: &Request) -> Option<GroupList>
    ensures { result ≡ group_list request.now }
{
    match *request {
        Request::Getgroups { size, list } => sized_list(size, list),
        Request::Setgroups { size, list } => sized_list(size, list),
        _ => None,
    }
}

/// A list whose size isn't negative.
fn sized_list(size: i32, at: u64) -> Option<GroupList>
    ensures { result ≡ sized_list size at }
{
    match u32::try_from(size) {
        Ok(count) => Some(GroupList { count, at }),
        Err(_) => None,
    }
}
