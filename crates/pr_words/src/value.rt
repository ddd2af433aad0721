//! What the value of an option says.
ghost use Rattle.std.specs.Prelude.{◌≡◌, option_map};
ghost use Rattle.pr_words.specs.Values.{is_numeral, number_of, turns_of, case_of, id_of, ids_of, slot_of, without_mark, binding_of, is_variable, variable_name, two_paths};

use crate::options::Slot;
use crate::spelling::cut_at;
use pr_base::are_digits;
use pr_base::limits::LARGEST_ID;

/// The most turns of a run.
const MOST_TURNS: u32 = 10_000_000;

/// The largest number of a generated case.
const LAST_CASE: u32 = 65535;

/// The largest place among the ready processes that a slot picks.
const LAST_PICK: u32 = 255;

/// The most instructions of a slot.
const MOST_FUEL: u32 = 100_000;

/// Whether this is one decimal digit or more, but no more than `digits` of them.
fn is_numeral(text: &[u8], digits: usize) -> bool
    ensures { result ≡ is_numeral digits text.now }
{
    !text.is_empty() && text.len() <= digits && are_digits(text)
}

/// The decimal number within a range that this many digits at most write.
fn number_of(text: &[u8], digits: usize, least: u32, most: u32) -> Option<u32>
    ensures { result ≡ number_of digits least most text.now }
{
    if !is_numeral(text, digits) {
        return None;
    }
    let Ok(text) = str::from_utf8(text) else {
        return None;
    };
    let Ok(number) = text.parse::<u32>() else {
        return None;
    };
    if least <= number && number <= most {
        Some(number)
    } else {
        None
    }
}

/// The number of turns of a run.
pub(crate) fn turns_of(text: &[u8]) -> Option<u32>
    ensures { result ≡ turns_of text.now }
{
    number_of(text, 8, 1, MOST_TURNS)
}

/// The number of a generated case.
pub(crate) fn case_of(text: &[u8]) -> Option<u32>
    ensures { result ≡ case_of text.now }
{
    number_of(text, 8, 0, LAST_CASE)
}

fn id_of(text: &[u8]) -> Option<u32>
    ensures { result ≡ id_of text.now }
{
    number_of(text, 10, 0, LARGEST_ID)
}

/// A user and a group.
pub(crate) fn ids_of(text: &[u8]) -> Option<(u32, u32)>
    ensures { result ≡ ids_of text.now }
{
    let (uid, gid) = cut_at(text, b':')?;
    let uid = id_of(uid)?;
    let gid = id_of(gid)?;
    Some((uid, gid))
}

/// One slot of a schedule.
pub(crate) fn slot_of(text: &[u8]) -> Option<Slot>
    ensures { result ≡ slot_of text.now }
{
    let (pick, fuel) = cut_at(text, b'*')?;
    let pick = number_of(pick, 8, 0, LAST_PICK)?;
    let fuel = number_of(fuel, 8, 1, MOST_FUEL)?;
    Some(Slot { pick, fuel })
}

/// A path without its final `!`, and whether it has one.
fn without_mark(path: &[u8]) -> (&[u8], bool)
    ensures { (result.0.now, result.1) ≡ without_mark path.now }
{
    match path.strip_suffix(b"!") {
        Some(path) => (path, true),
        None => (path, false),
    }
}

/// The host part of a binding and its location, and whether a last link is kept there.
pub(crate) fn binding_of(text: &[u8]) -> Option<(&[u8], &[u8], bool)>
    ensures { option_map (λ b. two_paths b.0.now (b.1.now, b.2)) result ≡ binding_of text.now }
{
    let (host, guest, keep) = match cut_at(text, b':') {
        Some((host, location)) => {
            let (guest, keep) = without_mark(location);
            (host, guest, keep)
        }
        None => {
            let (path, keep) = without_mark(text);
            (path, path, keep)
        }
    };
    if host.is_empty() || guest.is_empty() {
        None
    } else {
        Some((host, guest, keep))
    }
}

/// The name of a variable.
pub(crate) fn variable_name(text: &[u8]) -> Option<&[u8]>
    ensures { option_map (λ name. name.now) result ≡ variable_name text.now }
{
    let (name, _value) = cut_at(text, b'=')?;
    Some(name)
}

/// Whether a text is a variable: a name, a `=` and its value.
pub(crate) fn is_variable(text: &[u8]) -> bool
    ensures { result ≡ is_variable text.now }
{
    match variable_name(text) {
        Some(name) => !name.is_empty(),
        None => false,
    }
}
