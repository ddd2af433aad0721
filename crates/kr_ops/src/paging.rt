//! Changes of the pages of a process.
ghost use Rattle.law_lawful.specs.pr_base.Page.{page_size};
ghost use Rattle.std.specs.Prelude.{◌≡◌, ◌↔◌, ◌+◌, ◌*◌, ◌/◌, ◌%◌, ◌≤◌, ℕ, IsOk, IsTrue, IfSome, IsErrOf, OnOk, OnErr};
ghost use Rattle.law_lawful.specs.rv_mem.Memory.{passes_limit};
ghost use Rattle.law_lawful.specs.rv_mem.Pages.{has_pages, mapped};
ghost use Rattle.law_lawful.specs.kr_model.Change.{ChangePages, MapPages, ProtectPages, UnmapPages};
ghost use Rattle.law_lawful.specs.kr_model.Known.{pages_in_all};
ghost use Rattle.law_lawful.specs.kr_model.State.{image_layout, process};
ghost use Rattle.kr_ops.specs.Meaning.{meaning};
ghost use Rattle.kr_ops.specs.Making.{Makes};
ghost use Rattle.kr_ops.specs.Sound.{IsServed, IsSound, IsSoundFor};

use crate::state::State;
use law_lawful::below::{BadAddress, MapFault, PAGES_END, Rights};

impl<T: Copy, const M: u8> State<T, M> {
    /// Maps fresh zero pages of a living process from an address on, in place of those that are there; Full exactly where the process or
    /// all processes would have too many then.
    pub fn map_pages(
        &mut self,
        pid: u32,
        at: u64,
        pages: u32,
        rights: Rights,
    ) -> Result<(), MapFault>
        requires caller { IsSoundFor pid self.old }
        requires aligned { at % page_size ≡ 0 }
        requires below { at + page_size * pages ≤ PAGES_END }
        ensures full { let all = pages_in_all image_layout (meaning self.old).living in
            IfSome (process pid (meaning self.old)) (λ p. let m = p.image.memory.pages in
            IsErrOf result MapFault.Full ↔ IsTrue (passes_limit all m (mapped m (at / page_size) pages rights))) }
        ensures makes { OnOk result (Makes pid (ChangePages (MapPages (at / page_size) pages rights)) self.old self.new) }
        ensures served { IsServed self.new }
        ensures err { OnErr result (meaning self.new ≡ meaning self.old) }
    {
        let Some(k) = self.index_of(pid) else {
            unreachable!();
        };
        self.living[k].mem.map(&mut self.room, at, pages, rights)
    }

    /// Takes those pages of a range of a living process away that are there.
    pub fn unmap_pages(&mut self, pid: u32, at: u64, pages: u32)
        requires sound { IsSound self.old }
        requires aligned { at % page_size ≡ 0 }
        requires below { at + page_size * pages ≤ PAGES_END }
        ensures makes { Makes pid (ChangePages (UnmapPages (at / page_size) pages)) self.old self.new }
        ensures served { IsServed self.new }
    {
        if let Some(k) = self.index_of(pid) {
            self.living[k].mem.unmap(&mut self.room, at, pages);
        }
    }

    /// Gives the pages of a range of a living process other rights, all or none of them.
    pub fn protect_pages(
        &mut self,
        pid: u32,
        at: u64,
        pages: u32,
        rights: Rights,
    ) -> Result<(), BadAddress>
        requires caller { IsSoundFor pid self.old }
        requires aligned { at % page_size ≡ 0 }
        requires below { at + page_size * pages ≤ PAGES_END }
        ensures when { IfSome (process pid (meaning self.old)) (λ p. IsOk result ↔ IsTrue (has_pages p.image.memory.pages (at / page_size) pages)) }
        ensures makes { OnOk result (Makes pid (ChangePages (ProtectPages (at / page_size) pages rights)) self.old self.new) }
        ensures served { IsServed self.new }
        ensures err { OnErr result (meaning self.new ≡ meaning self.old) }
    {
        let Some(k) = self.index_of(pid) else {
            unreachable!();
        };
        self.living[k].mem.protect(at, pages, rights)
    }
}
