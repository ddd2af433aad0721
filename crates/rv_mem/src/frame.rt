//! The bytes of a page, as they are stored.
ghost use Rattle.rv_table.specs.pr_base.Page.{page_size};
ghost use Rattle.std.specs.Prelude.{◌≡◌, ◌+◌, ◌-◌, ◌≤◌, length, take, drop, IfOk, nat_eq, position};
ghost use Rattle.std.proofs.Math.Seq.{sets};
ghost use Rattle.rv_mem.specs.Page.{zero_bytes};

use rv_table::below::pr_base::PAGE_SIZE;
use std::alloc::{AllocError, Global};
use std::marker::Model;

/// How many bytes a page has, as the length of what holds them.
pub const PAGE_LENGTH: usize = PAGE_SIZE as usize;

/// The bytes of a page, as they are stored.
#[derive(Drop)]
pub struct Frame {
    bytes: Vec<u8>,
}

impl Model for Frame {
    ghost use Rattle.std.specs.Prelude.{◌≡◌, List, ℕ, length};
    ghost use Rattle.rv_table.specs.pr_base.Page.{page_size};

    ghost Value = { List ℕ };

    ghost view = { λ f. f.bytes.items };

    ghost invariant = { λ f. length f.bytes.items ≡ page_size };
}

impl Frame {
    /// Zeros.
    pub fn zeros(alloc: Global) -> Result<Frame, AllocError>
        ensures { IfOk result (λ frame. frame ≡ zero_bytes) }
    {
        let bytes = vec![in alloc; 0; PAGE_LENGTH]?;
        Ok(Frame { bytes })
    }

    /// Writes bytes from an offset on.
    #[inline(always)]
    pub fn write(&mut self, offset: usize, bytes: &[u8])
        requires { offset + length bytes.now ≤ page_size }
        ensures { self.new ≡ sets self.old offset bytes.now }
    {
        self.bytes[offset..offset + bytes.len()].copy_from_slice(bytes);
    }

    /// Copies the bytes from an offset on.
    #[inline(always)]
    pub fn copy_to(&self, offset: usize, into: &mut [u8])
        requires { offset + length into.old ≤ page_size }
        ensures bytes { into.new ≡ take (length into.old) (drop offset self.now) }
        ensures full { length self.now ≡ page_size }
    {
        into.copy_from_slice(&self.bytes[offset..offset + into.len()]);
    }

    /// How many of the `count` bytes from an offset on stand before the first zero, if there is one.
    pub fn zero_in(&self, offset: usize, count: usize) -> Option<usize>
        requires { offset + count ≤ page_size }
        ensures found { result ≡ position (λ b. nat_eq b 0) (take count (drop offset self.now)) }
        ensures full { length self.now ≡ page_size }
    {
        self.bytes[offset..offset + count]
            .iter()
            .position(|byte| *byte == 0)
    }
}

impl Clone for Frame {
    ghost is_clone = { λ old new. new ≡ old };

    fn clone(&self) -> Result<Frame, AllocError> {
        let bytes = self.bytes.clone()?;
        Ok(Frame { bytes })
    }
}
