//! Both machines begin alike: laws, and no code.
//!
//! What is proved, with the clause or the law that carries it:
//!
//! That both machines begin alike from the same words, and no code. Over a tree in which bindings were settled, where the walks of the start over
//! mounts break no calm rule, both starts are refused with the same error, or the machines match, with equal statuses, both lawful with what
//! lasts: whoever watches the one and whatever identity the other shows (`starts_go_together`). Its parts: the working directory stands at the
//! guest text that a tracer's walk gives (`working_directories_agree`); the same path is taken for a command (`commands_agree`); along a path
//! both find the same program, whose host text is no longer than the walk reaches, or the same error (`programs_agree`); behind scripts, and
//! behind the tests of lists, the same one runs with the same arguments (`scripts_agree`, `runs_agree`); by host texts the plain kernel comes to
//! the same directory, and plans to run the same program (`directories_are_handed_over`, `programs_are_handed_over`); and the states in which a
//! first process begins match and last, where it stands at guest texts (`first_states_match`, `first_states_last`). Settling leaves each mount's
//! source at the entry at which it was settled (`settled_sources_are_named`).
#![tactic(auto)]

pub mod beginning;
pub mod below;
pub mod finding;
