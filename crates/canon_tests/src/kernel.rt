//! A kernel in memory, which tells what its rows say.
ghost use Rattle.std.specs.Prelude.{◌≡◌, ◌&&◌, IfOk, OnOk};
ghost use Rattle.std.specs.Option.{option_copied};
ghost use Rattle.pt_results.specs.pr_base.Peeks.{IsPeeked};
ghost use Rattle.canon_tests.specs.Told.{is_steady, row_at, kind_of, steady_told, text_in};

use crate::told::{Row, Stands};
use pt_results::below::{BaseKind, Bytes, Errno, NoMemory, PeekFault, PeekKind, Peeks};
use std::alloc::Global;

/// A kernel of one process, whose working directory is `/data`, its executable `/data/n`, its descriptor 4 a pipe and
/// each other one open for `/data`. It finds memory for `calls` calls.
#[derive(Drop)]
pub struct Told {
    rows: Vec<Row>,
    calls: u32,
    unmet: bool,
    alloc: Global,
}

impl Told {
    /// A kernel in which nothing stands.
    pub fn new(alloc: Global, calls: u32) -> Told {
        Told {
            rows: Vec::new(alloc),
            calls,
            unmet: true,
            alloc,
        }
    }

    fn put(&mut self, host: Bytes, stands: Stands) -> Result<(), NoMemory> {
        self.rows.push(Row { host, stands })?;
        Ok(())
    }

    /// Adds what stands at a host path.
    pub fn add(&mut self, host: &[u8], stands: Stands) -> Result<(), NoMemory> {
        let host = Bytes::copy(self.alloc, host)?;
        self.put(host, stands)
    }

    /// Adds the root.
    pub fn add_root(&mut self) -> Result<(), NoMemory> {
        self.add(b"/", Stands::Dir)?;
        self.add(b"/.", Stands::Dir)
    }

    /// Adds a directory, and what its look-up of itself tells.
    pub fn add_dir(&mut self, host: &[u8], itself: Stands) -> Result<(), NoMemory> {
        let mut inside = Bytes::copy(self.alloc, host)?;
        inside.append(b"/.")?;
        self.put(inside, itself)?;
        self.add(host, Stands::Dir)
    }

    /// Adds a link.
    pub fn add_link(&mut self, host: &[u8], text: &[u8]) -> Result<(), NoMemory> {
        let text = Bytes::copy(self.alloc, text)?;
        self.add(host, Stands::Link(text))
    }

    /// Sets how many calls find memory.
    pub fn set_calls(&mut self, calls: u32)
        ensures { self.new.rows ≡ self.old.rows }
    {
        self.calls = calls;
    }

    /// One call less finds memory.
    fn count(&mut self) -> Result<(), NoMemory>
        ensures rows { self.new.rows ≡ self.old.rows }
        ensures unmet { self.new.unmet ≡ self.old.unmet }
    {
        if self.calls == 0 {
            return Err(NoMemory);
        }
        self.calls -= 1;
        Ok(())
    }

    /// Notes a walk: whether it is steady.
    fn note(&mut self)
        ensures rows { self.new.rows ≡ self.old.rows }
        ensures unmet { self.new.unmet ≡ (self.old.unmet && steady_told self.old.rows.items) }
    {
        self.unmet = self.unmet && self.has_no_jump();
    }

    /// Whether no link of the process directory stands anywhere.
    fn has_no_jump(&self) -> bool
        ensures { result ≡ steady_told self.now.rows.items }
    {
        self.rows.iter().all(|row| is_steady(&row.stands))
    }

    /// The row of a host path.
    fn row(&self, host: &[u8]) -> Option<&Row>
        ensures { option_copied result ≡ row_at self.now.rows.items host.now }
    {
        self.rows.iter().find(|row| row.host.as_slice() == host)
    }
}

/// The kind of what stands at a path.
fn kind_of(stands: &Stands) -> Result<PeekKind, PeekFault>
    ensures { IsPeeked (kind_of stands.now) result }
{
    match stands {
        Stands::Dir => Ok(PeekKind::Dir),
        Stands::File => Ok(PeekKind::File),
        Stands::Link(_) => Ok(PeekKind::Link),
        Stands::Jump => Ok(PeekKind::Jump),
        Stands::Fails(errno) => Err(PeekFault::Err(*errno)),
    }
}

/// The text of the link that stands at a path.
fn text_in(alloc: Global, stands: &Stands) -> Result<Bytes, PeekFault>
    ensures { IsPeeked (text_in stands.now) result }
{
    match stands {
        Stands::Dir | Stands::File => Err(PeekFault::Err(Errno::EINVAL)),
        Stands::Jump => Err(PeekFault::Err(Errno::ENOENT)),
        Stands::Fails(errno) => Err(PeekFault::Err(*errno)),
        Stands::Link(text) => {
            let copy = Bytes::copy(alloc, text.as_slice())?;
            Ok(copy)
        }
    }
}

/// Whether what stands at a path is no link of the process directory.
fn is_steady(stands: &Stands) -> bool
    ensures { result ≡ is_steady stands.now }
{
    match stands {
        Stands::Dir | Stands::File | Stands::Link(_) | Stands::Fails(_) => true,
        Stands::Jump => false,
    }
}

impl Peeks for Told {
    ghost use Rattle.std.specs.Prelude.{Err};
    ghost use Rattle.pt_results.specs.pr_base.declared.errno.Errno.TheVariants.{EACCES};
    ghost use Rattle.pt_results.specs.pr_base.declared.peeks.BaseKind.TheVariants.{Other};
    ghost use Rattle.canon_tests.specs.Told.{base_told, cwd_told, exe_told, kind_told, steady_told, text_told};
    ghost use Rattle.canon_tests.specs.ToldNames.{base_text, data_text, n_text, no_jump_told};

    ghost peeked = { λ told. record { kind = λ host. kind_told (row_at told.rows.items host); link_text = λ host. text_told (row_at told.rows.items host); head = λ host n. Err EACCES; steady = λ host. steady_told told.rows.items; base_kind = λ pid fd. Other; base_name = λ pid fd. base_told fd; cwd_name = λ pid. cwd_told; exe_name = λ pid. exe_told } };

    ghost Kept = { Unit {0} };

    ghost kept = { λ told. tt };

    ghost unmet = { λ told. told.unmet };

    fn kind(&mut self, host: &[u8]) -> Result<PeekKind, PeekFault> {
        self.count()?;
        self.note();
        match self.row(host) {
            Some(row) => kind_of(&row.stands),
            None => Err(PeekFault::Err(Errno::ENOENT)),
        }
    }

    fn link_text(&mut self, host: &[u8]) -> Result<Bytes, PeekFault> {
        self.count()?;
        self.note();
        match self.row(host) {
            Some(row) => text_in(self.alloc, &row.stands),
            None => Err(PeekFault::Err(Errno::ENOENT)),
        }
    }

    fn head(&mut self, host: &[u8], _n: u32) -> Result<Bytes, PeekFault> {
        self.note();
        Err(PeekFault::Err(Errno::EACCES))
    }

    fn steady(&mut self, _host: &[u8]) -> Result<bool, NoMemory> {
        self.count()?;
        Ok(self.has_no_jump())
    }

    fn base_kind(&mut self, _pid: u32, _fd: u32) -> BaseKind {
        BaseKind::Other
    }

    fn base_name(&mut self, _pid: u32, fd: u32) -> Result<Option<Bytes>, NoMemory> {
        self.count()?;
        if fd == 4 {
            return Ok(None);
        }
        Ok(Some(Bytes::copy(self.alloc, b"/data")?))
    }

    fn cwd_name(&mut self, _pid: u32) -> Result<Option<Bytes>, NoMemory> {
        self.count()?;
        Ok(Some(Bytes::copy(self.alloc, b"/data")?))
    }

    fn exe_name(&mut self, _pid: u32) -> Result<Option<Bytes>, NoMemory> {
        self.count()?;
        Ok(Some(Bytes::copy(self.alloc, b"/data/n")?))
    }

    ghost names_are_texts = { λ told. record { base = λ pid fd. base_text fd; cwd = λ pid. data_text; exe = λ pid. n_text } };

    ghost steady_is_no_jump = { λ told host. no_jump_told told.rows.items host };

    ghost fronts_are_steady = { λ told name host are steady. (steady, steady) };
}
