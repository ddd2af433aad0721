//! Open files, the descriptors that name them, and pipes.
//!
//! What is proved, with the clause or the law that carries it:
//!
//! Descriptors, open files and pipes.
//!
//! The meaning of a table of open files and of the descriptors of a process forgets the keys of the table: descriptors to numbers of open files
//! and flags, numbers to what is open, pipes by number to their bytes. Each call is the change of the definition on it (`table`, `files`,
//! `descs`, `gives`, `after`), and after a refusal both are as before (`err`, `err_descs`).
//!
//! `open`, `dup` and `pipe` take the lowest free descriptors (`lowest`), and Full comes exactly where there are too few, or 4,096 pipes (`full`).
//! `takes_pipe` tells exactly whether `pipe` isn't Full; `lowest_free` is the least free descriptor, of descriptors and of their meaning
//! (`lowest_free_is_the_least`, `lowest_free_goes_by_the_meaning`). The last close of an open file takes it away, and a pipe goes with its last
//! end.
//!
//! `pipe_read` and `pipe_write` move the least of what is asked and what is there or free, first in, first out (`answer`, `after`). NotReady and
//! NoReader come exactly by the pipe, whether there is memory or not (`waits`, `no_reader`).
//!
//! `renamed` and `removed` change what open files remember as their entries are renamed and removed; an entry that is renamed onto itself is
//! forgotten (`renamed_onto_itself_is_forgotten`).
//!
//! What holds of every table (`files_are_kept`): keys and open files belong together, each is named by a descriptor, the next numbers are fresh,
//! an end of a pipe has its pipe and a pipe an end, a pipe holds at most 65,536 bytes. An open descriptor has its file
//! (`open_descriptors_have_files`); a process has at most 1,024 descriptors (`descriptors_are_few`).
//!
//! Laws for what stands above: calls keep a process's descriptors open and counted, also where other processes share them (`calls_serve`), and do
//! the same on open files without their mounts (`calls_go_without_mounts`).
//!
//! Only tested, or not shown: `calls_tests`.
#![tactic(auto)]

pub mod below;
pub mod descs;
pub mod files;
pub mod laws;
mod open_files;
pub mod opened;
mod pipe;
mod pipes;
mod renames;

pub use descs::Descs;
pub use files::Files;
pub use opened::{FilesRefusal, Moved, Opened, PipeState, What, Wrote};
