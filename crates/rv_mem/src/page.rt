//! A page of a process's memory, without its marks.
ghost use Rattle.rv_table.specs.pr_base.Page.{page_size};
ghost use Rattle.std.specs.Prelude.{◌≡◌, ◌+◌, ◌%◌, ◌≤◌, Some, length, take, drop, IfSome, OnOk, OnErr, nat_eq, position};
ghost use Rattle.rv_table.specs.Small.{instr_of};
ghost use Rattle.rv_table.specs.Rows.{decoded};
ghost use Rattle.rv_mem.specs.Code.{word_at};

use crate::code::{Code, INSTRUCTION};
use crate::rights::{Rights, Use};
use crate::shared::Shared;
use rv_table::below::pr_base::NoMemory;
use rv_table::{Small, decode};
use std::alloc::{AllocError, Global};
use std::marker::Model;

/// A page without its marks. Its copies share its bytes until one of them is written; its rights are its own, and so is what was
/// decoded of it, which contracts don't see.
#[derive(Drop)]
pub struct Page {
    shared: Shared,
    rights: Rights,
    code: Code,
}

impl Model for Page {
    ghost use Rattle.rv_mem.specs.Code.{AreDecoded};
    ghost use Rattle.rv_mem.specs.PageList.{Unmarked, unmarked_code};

    ghost Value = { Unmarked };

    ghost coded = { unmarked_code };

    ghost view = { λ p. record { bytes = p.shared; rights = p.rights } };

    ghost invariant = { λ p. AreDecoded p.code.entries.items p.shared };
}

impl Page {
    ghost use Rattle.rv_mem.specs.Page.{grants};
    ghost use Rattle.rv_mem.specs.PageList.{fresh_unmarked, unmarked_with_rights, unmarked_written};

    /// A page of zeros.
    pub fn fresh(alloc: Global, rights: Rights) -> Page
        ensures { result ≡ fresh_unmarked rights }
    {
        let shared = Shared::zeros();
        let code = Code::none(alloc);
        Page {
            shared,
            rights,
            code,
        }
    }

    /// Whether the page's rights allow the use.
    #[inline(always)]
    pub fn grants(&self, what: Use) -> bool
        ensures { result ≡ grants self.now.rights what }
    {
        self.rights.grants(what)
    }

    /// Gives the page other rights.
    pub fn set_rights(&mut self, rights: Rights)
        ensures { self.new ≡ unmarked_with_rights rights self.old }
    {
        self.rights = rights;
    }

    /// Writes bytes from an offset on, in a copy where they are shared, and forgets what was decoded of them.
    #[inline(always)]
    pub fn write(&mut self, alloc: Global, offset: usize, bytes: &[u8]) -> Result<(), NoMemory>
        requires { offset + length bytes.now ≤ page_size }
        ensures ok { OnOk result (self.new ≡ unmarked_written offset bytes.now self.old) }
        ensures err { OnErr result (self.new ≡ self.old) }
    {
        self.shared.write(alloc, offset, bytes)?;
        self.code.forget(offset, offset + bytes.len());
        Ok(())
    }

    /// Copies the bytes from an offset on.
    #[inline(always)]
    pub fn copy_to(&self, offset: usize, into: &mut [u8])
        requires { offset + length into.old ≤ page_size }
        ensures bytes { into.new ≡ take (length into.old) (drop offset self.now.bytes) }
        ensures full { length self.now.bytes ≡ page_size }
    {
        self.shared.copy_to(offset, into);
    }

    /// How many of the `count` bytes from an offset on stand before the first zero, if there is one.
    pub fn zero_in(&self, offset: usize, count: usize) -> Option<usize>
        requires { offset + count ≤ page_size }
        ensures found { result ≡ position (λ b. nat_eq b 0) (take count (drop offset self.now.bytes)) }
        ensures full { length self.now.bytes ≡ page_size }
    {
        self.shared.zero_in(offset, count)
    }

    /// Whether there is room for what is decoded of the page.
    pub fn is_coded(&self) -> bool {
        self.code.has_room()
    }

    /// Makes room for what is decoded of the page, if there is memory for it.
    pub fn make_room(&mut self, alloc: Global)
        ensures { self.new ≡ self.old }
    {
        self.code.make_room(alloc);
    }

    /// The instruction of the word at an offset, if it is remembered.
    #[inline(always)]
    pub fn recalled(&self, offset: usize) -> Small
        requires { offset % 4 ≡ 0 }
        ensures { IfSome (instr_of result) (λ i. decoded (word_at self.now.bytes offset) ≡ Some i) }
    {
        self.code.recalled(offset / INSTRUCTION)
    }

    /// The instruction of the word at an offset, if it is one. It is remembered where there is room.
    pub fn decode(&mut self, offset: usize) -> Small
        requires aligned { offset % 4 ≡ 0 }
        requires within { offset + 4 ≤ page_size }
        ensures value { instr_of result ≡ decoded (word_at self.old.bytes offset) }
        ensures same { self.new ≡ self.old }
    {
        let found = Small::of(decode(self.word(offset)));
        self.code.remember(offset / INSTRUCTION, found);
        found
    }

    /// The number of the four bytes from an offset on.
    fn word(&self, offset: usize) -> u32
        requires { offset + 4 ≤ page_size }
        ensures { result ≡ word_at self.now.bytes offset }
    {
        let mut bytes = [0; INSTRUCTION];
        self.shared.copy_to(offset, &mut bytes);
        u32::from_le_bytes(bytes)
    }
}

impl Clone for Page {
    ghost is_clone = { λ old new. new ≡ old };

    fn clone(&self) -> Result<Page, AllocError> {
        let shared = self.shared.share()?;
        let code = Code::none(self.code.allocator());
        Ok(Page {
            shared,
            rights: self.rights,
            code,
        })
    }
}
