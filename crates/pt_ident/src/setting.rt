//! What calls make of three numbers, of a user or of a group alike: real, effective and saved. All ones stand for no number.
ghost use Rattle.std.specs.Prelude.{◌≡◌};
ghost use Rattle.pt_ident.specs.Answering.{seen};
ghost use Rattle.pt_ident.specs.Identity.{is_allowed, is_among, numbers_of, or_old, set_one, set_three, set_two};

use kr_inode::below::pr_base::Errno;

const NO_NUMBER: u32 = 0xffff_ffff;

/// setuid(2) and setgid(2): EINVAL of no number. With privilege all three become the number; else the effective one does, and
/// EPERM comes unless it is the real or the saved one.
pub(crate) fn set_one(old: [u32; 3], privileged: bool, id: u32) -> Result<[u32; 3], Errno>
    ensures { seen result ≡ set_one privileged id (numbers_of old) }
{
    let [real, _, saved] = old;
    if id == NO_NUMBER {
        Err(Errno::EINVAL)
    } else if privileged {
        Ok([id; 3])
    } else if is_among(&[real, saved], id) {
        Ok([real, id, saved])
    } else {
        Err(Errno::EPERM)
    }
}

/// setreuid(2) and setregid(2): EPERM, without privilege, unless a given real number is the old real or effective one, and a
/// given effective number is one of the old three. The new effective number is saved too where a real one is given, or an
/// effective one other than the old real one.
pub(crate) fn set_two(
    old: [u32; 3],
    privileged: bool,
    new_real: u32,
    new_effective: u32,
) -> Result<[u32; 3], Errno>
    ensures { seen result ≡ set_two privileged new_real new_effective (numbers_of old) }
{
    let [real, effective, saved] = old;
    if !privileged
        && !(is_allowed(&[real, effective], new_real) && is_allowed(&old, new_effective))
    {
        return Err(Errno::EPERM);
    }
    let next = or_old(new_effective, effective);
    let saves = new_real != NO_NUMBER || new_effective != NO_NUMBER && new_effective != real;
    Ok([
        or_old(new_real, real),
        next,
        if saves { next } else { saved },
    ])
}

/// setresuid(2) and setresgid(2): EPERM, without privilege, unless each given number is one of the old three.
pub(crate) fn set_three(
    old: [u32; 3],
    privileged: bool,
    new_real: u32,
    new_effective: u32,
    new_saved: u32,
) -> Result<[u32; 3], Errno>
    ensures { seen result ≡ set_three privileged new_real new_effective new_saved (numbers_of old) }
{
    let [real, effective, saved] = old;
    let allowed = is_allowed(&old, new_real)
        && is_allowed(&old, new_effective)
        && is_allowed(&old, new_saved);
    if privileged || allowed {
        Ok([
            or_old(new_real, real),
            or_old(new_effective, effective),
            or_old(new_saved, saved),
        ])
    } else {
        Err(Errno::EPERM)
    }
}

/// The number that is given, or the old one.
fn or_old(id: u32, old: u32) -> u32
    ensures { result ≡ or_old id old }
{
    if id == NO_NUMBER { old } else { id }
}

/// Whether it is one of these, or none.
fn is_allowed(ids: &[u32], id: u32) -> bool
    ensures { result ≡ is_allowed ids.now id }
{
    id == NO_NUMBER || is_among(ids, id)
}

fn is_among(ids: &[u32], id: u32) -> bool
    ensures { result ≡ is_among ids.now id }
{
    ids.iter().any(|own| *own == id)
}
