//! Names of entries.
ghost use Rattle.std.specs.Prelude.{◌≡◌, not, ◌||◌, nat_eq, IsTrue, ◌↔◌};
ghost use Rattle.std.specs.List.{list_all};
ghost use Rattle.pr_base.specs.Paths.{IsName};
ghost use Rattle.kr_inode.specs.Names.{is_name, is_dots};

/// Whether an entry may have a name: 1 to 255 bytes, none of them a slash or zero, and not `.` or
/// `..`.
pub fn is_name(name: &[u8]) -> bool
    ensures tests { result ≡ is_name name.now }
    ensures means { IsTrue result ↔ IsName name.now }
{
    passes(name)
}

/// The tests of `is_name`, as the definition has them.
fn passes(name: &[u8]) -> bool
    ensures { result ≡ is_name name.now }
{
    0 < name.len() && name.len() <= 255 && has_plain_bytes(name) && !is_dots(name)
}

/// Whether no byte of a name is a slash or zero.
fn has_plain_bytes(name: &[u8]) -> bool
    ensures { result ≡ list_all (λ b. not (nat_eq b 47 || nat_eq b 0)) name.now }
{
    name.iter().all(|b| !(*b == b'/' || *b == 0))
}

/// Whether a name is `.` or `..`.
fn is_dots(name: &[u8]) -> bool
    ensures { result ≡ is_dots name.now }
{
    match name {
        [a] => *a == b'.',
        [a, b] => *a == b'.' && *b == b'.',
        _ => false,
    }
}
