//! What a tracer without an identity makes of a call at its first stop lasts while other processes go on: laws, and no code.
//!
//! What is proved, with the law that carries it:
//!
//! A first stop rests on what is the caller's own, its registers, its memory, its working directory and what it has open, and on what is reached from the
//! root of the tree. Between two states in which these are the same (`StaysFor`, `Lasting.antt`) the plan of a call is the same where it looked up no name
//! in the process directory, and it looks up none there either: of every call but execve(2) `plans_last`. The plan of each execve(2), with all the scripts
//! that its path leads to, is `execve_plans_last`, where the bytes of files are the same, too. A tree of the same shape whose files have the same bytes
//! reaches the same nodes (`bytes_are_reached`), and what is reached from tree to tree is reached in the last (`reaches_go_on`). So the first stop leaves
//! the process, and keeps of it, what it did (`entries_last`).
//!
//! A second stop goes by what is kept of its process, by its tags and by its own registers (`exits_go_by_own`). So a tracer without an identity is local, as
//! kr_loose has it (`tracers_are_local`): for a process it goes by its bindings, by the host user and by that process's tags.
//!
//! At neither stop a byte is marked, whatever identity is told (`tracers_mark_nothing`).
#![tactic(auto)]

pub mod laws;
pub mod programs;
