//! Numbers of a listing, which zeros may lead.
ghost use Rattle.std.specs.Prelude.{◌≡◌, ◌≤◌, IfOk};
ghost use Rattle.kr_text.specs.Fields.{numeral, id_of, mode_of};

use crate::fault::TreeWhy;
use kr_tree::below::pr_base::limits::{LARGEST_ID, MODES};

/// The largest mode, in octal.
const LARGEST_MODE: u32 = MODES - 1;

/// The number that digits write, up to the largest.
fn numeral(text: &[u8], radix: u32, most: u32) -> Result<u32, TreeWhy>
    requires low { 2 ≤ radix }
    requires high { radix ≤ 10 }
    ensures value { result ≡ numeral radix most text.now }
    ensures bound { IfOk result (λ number. number ≤ most) }
{
    if text.is_empty() {
        return Err(TreeWhy::Number);
    }
    let mut value: u64 = 0;
    for byte in text {
        let Some(digit) = char::from(*byte).to_digit(radix) else {
            return Err(TreeWhy::Number);
        };
        value = value * u64::from(radix) + u64::from(digit);
        if u64::from(most) < value {
            return Err(TreeWhy::Number);
        }
    }
    Ok(value as u32)
}

/// A user's or a group's number.
pub(crate) fn id_of(text: &[u8]) -> Result<u32, TreeWhy>
    ensures { result ≡ id_of text.now }
{
    numeral(text, 10, LARGEST_ID)
}

/// A mode: one to four octal digits.
pub(crate) fn mode_of(text: &[u8]) -> Result<u16, TreeWhy>
    ensures { result ≡ mode_of text.now }
{
    if text.len() <= 4 {
        let mode = numeral(text, 8, LARGEST_MODE)?;
        Ok(mode as u16)
    } else {
        Err(TreeWhy::Number)
    }
}
