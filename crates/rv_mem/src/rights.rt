//! What may be done with a page.

/// The rights of a page, as mmap(2) gives them.
#[derive(Clone, Copy)]
pub struct Rights {
    pub r: bool,
    pub w: bool,
    pub x: bool,
}

/// What bytes are used for: each use needs the right of its name.
#[derive(Clone, Copy)]
pub enum Use {
    Read,
    Write,
    Execute,
}

impl Rights {
    ghost use Rattle.std.specs.Prelude.{◌≡◌};
    ghost use Rattle.rv_mem.specs.Page.{grants};

    /// Whether these rights allow the use.
    #[inline(always)]
    pub fn grants(self, what: Use) -> bool
        ensures { result ≡ grants self what }
    {
        match what {
            Use::Read => self.r,
            Use::Write => self.w,
            Use::Execute => self.x,
        }
    }
}
