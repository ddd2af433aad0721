//! How far walks reach.
ghost use Rattle.std.specs.Prelude.{◌≡◌};
ghost use Rattle.kr_calm.specs.Rules.{breaks_6};

use kr_seen::below::Reach;

/// The most bytes of a host name that a calm walk reaches.
const LONGEST_NAME: u64 = 4_000;

/// Whether walks reached a host name that is too long (rule 6).
pub fn reaches_too_far(reach: &Reach) -> bool
    ensures { result ≡ breaks_6 reach.now }
{
    LONGEST_NAME < reach.longest
}
