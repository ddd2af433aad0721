//! Reservations.
ghost use Rattle.std.specs.Prelude.{◌≡◌};
ghost use Rattle.rv_cpu.specs.Step.{is_held};

/// The bytes that the last LR reserved, for an SC of the same address and width to store in.
#[derive(Clone, Copy)]
pub struct Held {
    /// The address of the first byte.
    pub at: u64,
    /// Whether they are a doubleword. Else they are a word.
    pub wide: bool,
}

/// Whether the bytes of an address and a width are reserved.
pub(crate) fn is_held(held: Option<Held>, wide: bool, at: u64) -> bool
    ensures { result ≡ is_held held wide at }
{
    match held {
        Some(held) => held.at == at && held.wide == wide,
        None => false,
    }
}
