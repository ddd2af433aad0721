//! The state of a kernel in code: what calls ask of it, and what they change.
//!
//! What is proved, with the clause or the law that carries it:
//!
//! The state of a kernel in code, and the 30 changes but one: the image of a new program is put in where it is loaded (kr_execve). The calls
//! stand in crates above it.
//!
//! `State` means a state of kr_model (`meaning`). Each change makes the change of the definition on what a state means: of the console
//! (`take_input`, `write_out`, `write_err`), of the tree (`add_node`, `link_node`, `remove_name`, `move_name`, `set_mode`, `set_owner`,
//! `set_size`, `write_file`), of descriptors (`open`, `copy`, `copy_onto`, `close`, `set_cloexec`, `seek`, `set_append`, `close_on_exec`), of
//! pipes (`make_pipe`, `take_from_pipe`, `put_into_pipe`), of memory (`map_pages`, `unmap_pages`, `protect_pages`, `set_break`), and of processes
//! (`set_umask`, `change_directory`, `replace_executable`, `fork`, `end`, `reap`). The clauses are `Makes`, and `Opens`,
//! `MovesTo` and `Executes` where a change names a mount.
//!
//! A refusal comes exactly at the limits of the tree and at 1,024 descriptors, and leaves what the state means as it was (`err`, `full`, `when`,
//! `too_big`), as does want of memory where something is opened, copied or a pipe is made; of a state after any other want of memory nothing is
//! promised.
//!
//! What the code keeps beside the meaning stays kept (`served`): each descriptor leads to its open file, and the room is the sum of the pages of
//! all.
//!
//! What is asked of a state is exact: a process, what stands at a descriptor and whether it is closed on exec, the lowest free descriptor,
//! whether a pipe fits, the pages that are left, and a child, living or ended (`process`, `opened`, `cloexec`, `lowest_free`, `takes_pipe`,
//! `free_pages`, `has_child`, `ended_child`, `Meant::by`).
//!
//! A state that means a lawful state meets what the changes ask of it (`lawful_states_are_sound`); that changes keep a lawful state is
//! law_lawful's law.
//!
//! Only tested, or not shown: That changes succeed with ample memory: `calls_tests` of the console and of the tree, `rows` of the others in whole
//! runs.
#![tactic(auto)]

mod asking;
pub mod below;
mod changing;
mod closing;
mod console;
mod descriptors;
mod ending;
mod executing;
mod forking;
mod holding;
pub mod laws;
mod living;
mod names;
mod nodes;
mod opening;
mod paging;
mod pipes;
mod state;

pub use asking::Meant;
pub use state::{EndedProcess, Process, State};
