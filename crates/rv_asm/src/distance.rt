//! Distances from an instruction to a label, in bytes.
ghost use Rattle.std.specs.Prelude.{◌≡◌, ◌≤◌, ◌^◌, pos, negsuc, ◌≤ℤ◌, All};
ghost use Rattle.rv_asm.specs.Assembly as spec;
ghost use Rattle.rv_asm.specs.Program.{IsInside};
ghost use Rattle.rv_asm.specs.Program as program;

/// Where a label stands, `None` where it isn't bound.
pub(crate) fn place_of(places: &[Option<u64>], label: u32) -> Option<u64>
    ensures { result ≡ program.place_of places.now label }
{
    match places.get(label as usize) {
        Some(place) => *place,
        None => None,
    }
}

/// From an item that stands `at` bytes behind the start to a label that is bound.
pub(crate) fn distance(places: &[Option<u64>], at: u64, label: u32) -> i64
    requires here { at ≤ 2 ^ 62 }
    requires inside { All (IsInside (2 ^ 62)) places.now }
    ensures value { result ≡ spec.distance places.now at label }
    ensures above { negsuc (2 ^ 62) ≤ℤ result }
    ensures below { result ≤ℤ pos (2 ^ 62) }
{
    let place = place_of(places, label).unwrap_or(0);
    place as i64 - at as i64
}

/// Whether `WIDTH` bits hold the distance in two's complement.
pub(crate) fn fits<const WIDTH: u32>(distance: i64) -> bool
    requires some { 1 ≤ WIDTH }
    requires within { WIDTH ≤ 32 }
    ensures { result ≡ spec.fits WIDTH distance }
{
    let sign_bit = 1i64 << (WIDTH - 1);
    (-sign_bit..sign_bit).contains(&distance)
}

/// The multiple of 4,096 that is nearest to a distance: what AUIPC adds.
pub(crate) fn upper(distance: i64) -> i64
    requires above { negsuc (2 ^ 62) ≤ℤ distance }
    requires below { distance ≤ℤ pos (2 ^ 62) }
    ensures { result ≡ spec.upper distance }
{
    (distance + 2048).div_euclid(4096) * 4096
}

/// What is left of a distance: what ADDI adds.
pub(crate) fn lower(distance: i64) -> i64
    requires above { negsuc (2 ^ 62) ≤ℤ distance }
    requires below { distance ≤ℤ pos (2 ^ 62) }
    ensures { result ≡ spec.lower distance }
{
    distance - upper(distance)
}
