//! Numbers as names.
ghost use Rattle.std.specs.Prelude.{◌≡◌};
ghost use Rattle.kr_procfs.specs.Decimals.{is_decimal, number_named};

use kr_view::below::pr_base::are_digits;

/// Whether this is a number in decimal, without sign and leading zeros.
fn is_decimal(name: &[u8]) -> bool
    ensures { result ≡ is_decimal name.now }
{
    are_digits(name) && (name.len() == 1 || name.first().is_some_and(|first| *first != b'0'))
}

/// The number of 32 bits that a name is the decimal text of; none for any other name.
pub fn number_of(name: &[u8]) -> Option<u32>
    ensures { result ≡ number_named name.now }
{
    if !is_decimal(name) {
        return None;
    }
    let Ok(digits) = str::from_utf8(name) else {
        return None;
    };
    match digits.parse::<u32>() {
        Ok(number) => Some(number),
        Err(_) => None,
    }
}
