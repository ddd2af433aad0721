//! Bits of a word.
ghost use Rattle.std.specs.Prelude.{◌≡◌, ℕ, ◌+◌, ◌-◌, ◌/◌, ◌%◌, ◌^◌, ◌≤◌};

/// Bits `HI` down to `LO` of a word, both of them included, moved down to bit 0.
pub fn bits<const HI: u32, const LO: u32>(w: u32) -> u32
    requires ordered { LO ≤ HI }
    requires within { HI ≤ 31 }
    ensures { result ≡ (w / 2 ^ LO) % 2 ^ (HI - LO + 1) }
{
    (w >> LO) & (u32::MAX >> (31 - (HI - LO)))
}
