//! The table of the calls with paths.
ghost use Rattle.std.specs.Prelude.{◌≡◌, option_map};
ghost use Rattle.kr_calls.specs.Arguments.{has};
ghost use Rattle.kr_calls.specs.CallTable.{has_path};
ghost use Rattle.kr_calls.specs.PathTable.{path_at};
ghost use Rattle.kr_calls.specs.PathUses.{link_mode, look_mode, open_mode, path_use};

use crate::arguments::has;
use crate::request::Request;
use bitflags::Flags;
use rv_mem::below::pr_base::limits::AT_FDCWD;
use rv_mem::below::pr_base::{AtFlags, OpenFlags, WalkMode};

/// A path of a call.
#[derive(Clone, Copy)]
pub struct PathArg<'a> {
    /// The descriptor from whose directory a relative path is taken.
    pub dirfd: i32,
    pub text: &'a [u8],
    pub mode: WalkMode,
    /// The number of the register that holds the address of the text.
    pub register: u8,
}

/// Path `k` of a request, counted from 0; `None` exactly where it has no more than `k`.
pub fn path_of(r: &Request, k: u8) -> Option<PathArg<'_>>
    ensures { option_map path_use result ≡ path_at r.now k }
{
    macro_rules! path_table {
        (
            from the working directory: $($here:ident)*;
            $($call:ident $number:literal $dirfd:ident $text:ident [$($flags:ident)?] $mode:expr, $register:literal;)*
        ) => {
            match r {
                $(Request::$here { path, .. } if k == 0 => Some(PathArg {
                    dirfd: AT_FDCWD,
                    text: path.as_slice(),
                    mode: WalkMode::Look,
                    register: 10,
                }),)*
                $(Request::$call { $dirfd, $text, $($flags,)? .. } if k == $number => Some(PathArg {
                    dirfd: *$dirfd,
                    text: $text.as_slice(),
                    mode: $mode,
                    register: $register,
                }),)*
                _ => None,
            }
        };
    }
    path_table! {
        from the working directory: Chdir Chroot Execve;
        Mkdirat 0 dirfd path [] WalkMode::Name, 11;
        Unlinkat 0 dirfd path [] WalkMode::Name, 11;
        Symlinkat 0 dirfd path [] WalkMode::Name, 12;
        Linkat 0 olddir old [flags] link_mode(*flags), 11;
        Linkat 1 newdir new [] WalkMode::Name, 13;
        Renameat2 0 olddir old [] WalkMode::Name, 11;
        Renameat2 1 newdir new [] WalkMode::Name, 13;
        Fchmodat 0 dirfd path [] WalkMode::Look, 11;
        Fchownat 0 dirfd path [flags] look_mode(*flags), 11;
        Faccessat 0 dirfd path [] WalkMode::Look, 11;
        Openat 0 dirfd path [flags] open_mode(*flags), 11;
        Readlinkat 0 dirfd path [] WalkMode::LookLink, 11;
        Newfstatat 0 dirfd path [flags] look_mode(*flags), 11;
    }
}

/// Whether the call of a number has a path. A number that is none of a call has none.
pub fn has_path(number: u64) -> bool
    ensures { result ≡ has_path number }
{
    matches!(
        number,
        34 | 35 | 36 | 37 | 48 | 49 | 51 | 53 | 54 | 56 | 78 | 79 | 221 | 276
    )
}

/// What the walk of newfstatat(2) and fchownat(2) is for.
fn look_mode(flags: u32) -> WalkMode
    ensures { result ≡ look_mode flags }
{
    if has(flags, AtFlags::SYMLINK_NOFOLLOW.bits()) {
        WalkMode::LookLink
    } else {
        WalkMode::Look
    }
}

/// What the walk along the old path of linkat(2) is for.
fn link_mode(flags: u32) -> WalkMode
    ensures { result ≡ link_mode flags }
{
    if has(flags, AtFlags::SYMLINK_FOLLOW.bits()) {
        WalkMode::Look
    } else {
        WalkMode::LookLink
    }
}

/// What the walk of openat(2) is for.
fn open_mode(flags: u32) -> WalkMode
    ensures { result ≡ open_mode flags }
{
    let keeps_link = has(flags, OpenFlags::NOFOLLOW.bits());
    if has(flags, OpenFlags::CREAT.bits()) {
        if has(flags, OpenFlags::EXCL.bits()) || keeps_link {
            WalkMode::Name
        } else {
            WalkMode::Open
        }
    } else if keeps_link {
        WalkMode::LookLink
    } else {
        WalkMode::Look
    }
}
