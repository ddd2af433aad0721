//! Calls along paths, with their stops, on both machines, with an identity and without one: laws, and no code.
//!
//! What is proved, with the clause or the law that carries it:
//!
//! That calls along paths keep both machines together with their stops, and no code. Where no identity is told, a call along paths that breaks no
//! calm rule keeps the match of two machines, whatever the tracer makes of it (`path_calls_go_together`): whoever watches the kernel with mounts,
//! the tracer leaves it, swaps its paths, cancels or answers it so that what law_stops wants of that holds (`path_calls_are_made_alike`). So
//! does each call but execve(2) (`other_calls_go_together`).
//!
//! That each call but execve(2) keeps both machines together where processes are told an identity, and no code. A calm call along a path is made
//! alike by the tracer whoever watches, and the tracer knows as the kernel with mounts whether chroot(2) led to the root
//! (`other_faked_calls_go_together`).
//!
//! Only tested, or not shown: execve(2): law_execves.
#![tactic(auto)]

pub mod faked;
pub mod laws;
