//! What the tracer does at the stops of calls that it lets pass, and calls with their stops where processes are told an identity: laws, and
//! no code.
//!
//! What is proved, with the clause or the law that carries it:
//!
//! That a call keeps both machines together with its stops, where no identity is told, and no code. At the first stop of a call without a path
//! the tracer leaves the process as it is, but that what decoding reads is noted (`entries_pass`); at the second one it leaves a process whose
//! arguments are as they were, and sets the tag of what the call made or copied (`exits_pass`): what it notes is what the changes make of the
//! tags (`notes_follow`).
//!
//! Each of these laws takes a scene: two machines before a call (`Scene`) that match, both lawful with what lasts, over memories of bytes and 32
//! registers; and a call that breaks no calm rule, and says that they match behind it and are such again. A call without a path, or one that isn't decoded, is such with no other
//! premise (`pathless_calls_go_together`). Of calls along paths it is shown for each thing that a tracer may do, with a premise that names what
//! the plain kernel and the tracer must have in common with the kernel with mounts: where it cancels the call with the error that this one
//! answers (`cancelled_calls_go_together`), where it answers in the kernel's place (`answered_calls_go_together`), where it swaps the paths and
//! the plain kernel is told of the new ones what this one is told of the old ones (`swapped_calls_go_together`), and where it leaves them as they
//! are (`passed_calls_go_together`).
//!
//! Where all calls keep the machines together, so does each turn (`traced_turns_go_together`), and a calm run and the watched one come to the
//! same bytes, the same end, the same status and the same tree (`traced_runs_come_alike`).
//!
//! That both machines stay together where processes are told an identity, and no code. A call on users and groups, which both watchers answer,
//! keeps them together (`identity_calls_go_together`), a call that the kernels carry out does where it does so without an identity and its answer
//! is edited alike (`kernels_calls_go_together`), and so does every call without a path, and one that isn't decoded, with no other premise
//! (`faked_calls_go_together`); calls along paths where they do so without an identity (`path_calls_go_together`, `path_calls_just_answer`),
//! whatever the tracer makes of them (`faked_swaps_go_together`, `faked_passes_go_together`, `faked_answers_go_together`,
//! `faked_errors_go_together`), and execve(2) where it does so and a program begins on both machines or on none (`programs_go_together`,
//! `programs_read_no_mark`). So where calls along paths and those of new programs do, all calls do (`all_calls_go_together`), and both watchers
//! start with the same identities (`watchers_start_alike`). What is edited of answers and of new programs leaves states that match, and both
//! watchers remember the same of what a call said of its file (`edits_keep_matches`, `beginnings_keep_matches`, `edits_read_unmarked`). Where
//! each call keeps them together, so does each turn
//! (`faked_turns_go_together`), and a calm run and the watched one come to the same (`faked_runs_come_alike`).
//!
//! Only tested, or not shown: That those premises hold of every calm call along paths is law_paths's, and of execve(2) law_execves's.
#![tactic(auto)]

pub mod along;
pub mod below;
pub mod calling;
pub mod editing;
pub mod passing;
pub mod running;
pub mod together;
