//! Marks of bytes, and that nothing but the judging of calm looks at them: laws, and no code.
//!
//! What is proved, with the law that carries it:
//!
//! A memory without its marks has the same pages, rights and bytes (`unmarked`); a state without marks is that of each of its memories
//! (`unmarked_in`). To mark bytes changes nothing else (`marks_are_apart`). Whatever is done on a memory, as a tree of actions, gives the same
//! with and without marks, and leaves the same but for marks (`actions_see_no_marks`); so do instructions (`instructions_see_no_marks`). What calls
//! know of a state, where their paths lead and what they are told of them is the same (`calls_see_no_marks`), and changes leave the same but for
//! marks (`changes_see_no_marks`).
//!
//! Unlike `AreEqualUnmarked` of rv_mem these laws ask of nothing that no marked byte is read.
//!
//! To mark a shelf is all that a kernel with marks does besides (`shelves_are_marks`), and no call comes to anything else by it: no row, no new
//! program, and so no call from its decoding on (`plain_calls_see_no_marks`). Nobody sees marks at a stop, nor does the watcher that fakes
//! identities (`watchers_see_no_marks`). So a turn with marks is a turn without marks, but for marks and what is told of calm
//! (`turns_see_no_marks`), and runs from machines that are equal but for these stay so, whichever of them keeps marks (`runs_see_no_marks`): all
//! that is told of them is equal but for calm, the bytes of each turn, how the run ends, its status and its tree (`runs_tell_alike`).
//!
//! So who asks for no word on calm can be served by a kernel that keeps no marks, and be told what a kernel with marks would tell.
#![tactic(auto)]

pub mod memories;
pub mod runs;
