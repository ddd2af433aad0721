use kr_ops::below::{Descs, Files, FilesRefusal, Moved, NoMemory, Wrote};
use std::alloc::Global;
use std::marker::Model;

/// A process on a table of its own. Each method makes the call where its conditions hold.
#[derive(Drop)]
pub struct Guest {
    files: Files<u32>,
    descs: Descs,
}

impl Model for Guest {
    ghost use Rattle.std.specs.Prelude.{ℕ};
    ghost use Rattle.kr_ops.specs.kr_files.Serves.{Serves};

    ghost Value = { ℕ };

    ghost view = { λ g. g.files.table.last_file };

    ghost invariant = { λ g. Serves g.files g.descs (λ _. 0) };
}

impl Guest {
    pub fn new(alloc: Global) -> Guest {
        Guest {
            files: Files::new(alloc),
            descs: Descs::new(alloc),
        }
    }

    pub fn pipe(&mut self) -> Result<(u32, u32), FilesRefusal> {
        if self.files.last_file() >= u64::MAX - 1 || self.files.last_pipe() == u32::MAX {
            return Err(FilesRefusal::NoMemory);
        }
        self.files.pipe(&mut self.descs, false)
    }

    pub fn write(&mut self, pipe: u32, b: &[u8]) -> Option<Result<Wrote, NoMemory>> {
        if b.is_empty() || self.files.pipe_state(pipe).is_none() {
            return None;
        }
        Some(self.files.pipe_write(pipe, b))
    }

    pub fn read(&mut self, pipe: u32, n: usize) -> Option<Result<Moved, NoMemory>> {
        if n == 0 || self.files.pipe_state(pipe).is_none() {
            return None;
        }
        Some(self.files.pipe_read(pipe, n))
    }
}
