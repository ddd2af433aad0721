//! Execve(2) keeps both machines together, with its stops, with an identity and without one: laws, and no code.
//!
//! What is proved, with the clause or the law that carries it:
//!
//! That calm calls of execve(2) keep both machines together with their stops, and no code: programs and scripts, with an identity and without
//! one.
//!
//! At the first stop the tracer goes by what it would be told of the kernel with mounts, and both kernels begin together
//! (`execves_begin_together`). It puts the host text of where the path leads in its place, cancels the call where its walk fails, and lets an
//! empty path be (`execves_are_rewritten`); of a script it puts what stands on the shelf in the place of path and arguments. Where it cancels the
//! call with the error of the kernel with mounts, both machines stay together (`cancelled_execves_go_together`); and so where the plain kernel
//! finds another execve that comes to the same, the same error or the same program of whose file the tracer has the index
//! (`entered_execves_go_together`). A program that is loaded was accepted and can be put in place of a caller's (`loaded_programs_are_ready`,
//! `ready_programs_can_be_put`), and states that match then match again (`programs_keep_matches`). Where lists were read, the addresses of the
//! arguments can be read again (`kept_addresses_are_read`). So a calm call keeps the match (`execves_go_together`).
//!
//! Where no identity is told, a calm one ends alike on both kernels, with no child, and a new program begins on both or on none
//! (`untold_execves_go_on`); so with the same identity on both machines it keeps them together with its stops, and the new program is told who it
//! is on both (`faked_execves_go_together`).
#![tactic(auto)]

pub mod addresses;
pub mod beginning;
pub mod following;
pub mod going;
pub mod replacing;
pub mod told;
