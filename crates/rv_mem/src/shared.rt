//! The bytes of a page, shared by its copies.
ghost use Rattle.rv_table.specs.pr_base.Page.{page_size};
ghost use Rattle.std.specs.Prelude.{◌≡◌, ◌+◌, ◌≤◌, length, take, drop, IfOk, OnOk, OnErr, nat_eq, position};
ghost use Rattle.std.proofs.Math.Seq.{sets};
ghost use Rattle.rv_mem.specs.Page.{zero_bytes};

use crate::frame::Frame;
use rv_table::below::pr_base::NoMemory;
use std::alloc::{AllocError, Global};
use std::marker::Model;
use std::rc::Rc;

/// The bytes of a page. Copies share them: the first write to one of them takes a frame of its own. A page
/// of zeros has no frame until it is written.
#[derive(Drop)]
pub struct Shared {
    frame: Option<Rc<Frame>>,
}

impl Model for Shared {
    ghost use Rattle.std.specs.Prelude.{List, ℕ};
    ghost use Rattle.std.specs.Option.{option_map_or};
    ghost use Rattle.rv_mem.specs.Page.{zero_bytes};

    ghost Value = { List ℕ };

    ghost view = { λ s. option_map_or (λ frame. frame.value) s.frame zero_bytes };
}

impl Shared {
    /// Zeros.
    pub fn zeros() -> Shared
        ensures { result ≡ zero_bytes }
    {
        Shared { frame: None }
    }

    /// A copy, which shares the bytes.
    pub fn share(&self) -> Result<Shared, AllocError>
        ensures { IfOk result (λ shared. shared ≡ self.now) }
    {
        let frame = self.frame.clone()?;
        Ok(Shared { frame })
    }

    /// Makes all bytes zero.
    pub fn clear(&mut self)
        ensures { self.new ≡ zero_bytes }
    {
        self.frame = None;
    }

    /// Writes bytes from an offset on, in a copy where they are shared.
    #[inline(always)]
    pub fn write(&mut self, alloc: Global, offset: usize, bytes: &[u8]) -> Result<(), NoMemory>
        requires { offset + length bytes.now ≤ page_size }
        ensures ok { OnOk result (self.new ≡ sets self.old offset bytes.now) }
        ensures err { OnErr result (self.new ≡ self.old) }
    {
        if let Some(shared) = &mut self.frame {
            let frame = Rc::make_mut(shared)?;
            frame.write(offset, bytes);
            return Ok(());
        }
        let mut frame = Frame::zeros(alloc)?;
        frame.write(offset, bytes);
        self.frame = Some(Rc::new(alloc, frame)?);
        Ok(())
    }

    /// Copies the bytes from an offset on.
    #[inline(always)]
    pub fn copy_to(&self, offset: usize, into: &mut [u8])
        requires { offset + length into.old ≤ page_size }
        ensures bytes { into.new ≡ take (length into.old) (drop offset self.now) }
        ensures full { length self.now ≡ page_size }
    {
        match &self.frame {
            Some(frame) => frame.copy_to(offset, into),
            None => into.fill(0),
        }
    }

    /// How many of the `count` bytes from an offset on stand before the first zero, if there is one.
    pub fn zero_in(&self, offset: usize, count: usize) -> Option<usize>
        requires { offset + count ≤ page_size }
        ensures found { result ≡ position (λ b. nat_eq b 0) (take count (drop offset self.now)) }
        ensures full { length self.now ≡ page_size }
    {
        match &self.frame {
            Some(frame) => frame.zero_in(offset, count),
            None if count == 0 => None,
            None => Some(0),
        }
    }
}
