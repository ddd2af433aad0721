//! Keys of remembered answers.
ghost use Rattle.std.specs.Prelude.{◌≡◌, IfOk};
ghost use Rattle.pt_canon.specs.Keys.{key_bytes, key_in};
ghost use Rattle.pt_canon.specs.Remembering.{key_of, mode_number};

use pt_bind::below::pr_base::{Bytes, NoMemory, WalkMode};
use std::alloc::Global;
use std::marker::Model;

/// What a walk is asked, as one run of bytes: the length of the guest text where it begins, in eight bytes, the number of
/// its mode, that text, and the path. So no two keys have the same bytes.
#[derive(Drop)]
pub(crate) struct Key {
    bytes: Vec<u8>,
}

impl Model for Key {
    ghost use Rattle.pt_canon.specs.Keys.{IsKeyBytes, key_in};
    ghost use Rattle.pt_canon.specs.Remembering.{Key};

    ghost Value = { Key };

    ghost view = { λ k. key_in k.bytes.items };

    ghost invariant = { λ k. IsKeyBytes k.bytes.items };
}

impl Key {
    pub(crate) fn of(
        alloc: Global,
        base: &[u8],
        path: &[u8],
        mode: WalkMode,
    ) -> Result<Key, NoMemory>
        ensures { IfOk result (λ key. key ≡ key_of base.now path.now mode) }
    {
        let mut bytes = Bytes::copy(alloc, &base.len().to_le_bytes())?;
        bytes.append(&[number_of(mode)])?;
        bytes.append(base)?;
        bytes.append(path)?;
        Ok(Key {
            bytes: bytes.into_vec(),
        })
    }

    pub(crate) fn bytes(&self) -> &[u8]
        ensures bytes { result.now ≡ key_bytes self.now }
        ensures read { key_in result.now ≡ self.now }
    {
        self.bytes.as_slice()
    }

    /// The bytes as the vector that holds them. It takes no memory.
    pub(crate) fn into_bytes(self) -> Vec<u8>
        ensures bytes { result.items ≡ key_bytes self }
        ensures read { key_in result.items ≡ self }
    {
        self.bytes
    }
}

/// The number of a mode.
fn number_of(mode: WalkMode) -> u8
    ensures { result ≡ mode_number mode }
{
    match mode {
        WalkMode::Look => 0,
        WalkMode::LookLink => 1,
        WalkMode::Name => 2,
        WalkMode::Open => 3,
    }
}
