//! Which calls fail.
ghost use Rattle.std.specs.Prelude.{◌≡◌, ◌≤◌, ◌↔◌, Contains, IsTrue};
ghost use Rattle.pr_io.specs.Faults.{raised};

/// The calls of an object that fails at listed ones: calls are numbered from 0.
#[derive(Drop)]
pub(crate) struct Calls {
    pub(crate) failing: Vec<u32>,
    pub(crate) made: u64,
    pub(crate) failed: u64,
}

impl Calls {
    pub(crate) fn new(failing: Vec<u32>) -> Calls
        ensures failing { result.failing ≡ failing }
        ensures made { result.made ≡ 0 }
        ensures failed { result.failed ≡ 0 }
    {
        Calls {
            failing,
            made: 0,
            failed: 0,
        }
    }

    /// Whether the next call fails.
    pub(crate) fn next_fails(&self) -> bool
        ensures { IsTrue result ↔ Contains self.now.failing.items self.now.made }
    {
        self.failing
            .iter()
            .any(|call| u64::from(*call) == self.made)
    }

    /// Counts a call that does not fail. The count stands still at its end.
    pub(crate) fn pass(&mut self)
        ensures { self.new ≡ record self.old { made = raised self.old.made } }
    {
        self.made = self.made.saturating_add(1);
    }

    /// Counts a call that fails.
    pub(crate) fn fail(&mut self)
        ensures counts { self.new ≡ record self.old { made = raised self.old.made; failed = raised self.old.failed } }
        ensures grows { self.old.failed ≤ self.new.failed }
    {
        self.made = self.made.saturating_add(1);
        self.failed = self.failed.saturating_add(1);
    }
}
