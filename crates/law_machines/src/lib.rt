//! What a plain kernel with a tracer does is what a kernel with mounts does, from the same words and sources on: laws, and no code.
//!
//! What is proved, with the clause or the law that carries it:
//!
//! Laws of what a run is given, and no code. Words of bytes ask for options whose texts are bytes (`asked_are_of_bytes`), and that are within
//! their limits (`asked_are_sound`). Settling bindings of bytes leaves a tree of bytes (`settled_trees_have_bytes`), and where bindings settle in
//! a tree that was read, both machines can begin (`settled_is_opening`). So what words of bytes and what was read of the sources give is what
//! both machines can begin on, however many mounts there are (`given_is_opening`).
//!
//! That starts give what runs rest on, and no code. Mounts on which a start can begin are made of bytes (`openings_are_made_of_bytes`); where a
//! start breaks no calm rule, both machines begin with all that runs rest on which come to the same, or are refused with the same error
//! (`starts_can_run`). Where processes are told an identity, both machines begin with all that such runs rest on, the one watched by the watcher
//! of identities, or are refused with the same error (`faked_starts_can_run`).
//!
//! What a plain kernel with a tracer does is what a kernel with mounts does, and no code. Without an identity a machine with mounts runs as one
//! that nobody watches (`nobody_watches`), a listing tells the nodes of a tree alone (`listings_tell_nodes`), and of two runs that come to the
//! same the same is put (`reports_are_alike`).
//!
//! A whole turn of a machine with mounts that breaks no calm rule, whatever runs in it, and that of the plain one leave both together as they
//! were before it, without an identity and with one (`whole_turns_go_together`): they match, both are lawful with what lasts and made of bytes,
//! and both watchers go by the same.
//!
//! So a calm run over mounts and the run that a tracer watches on the same words come to the same in all: the bytes of each turn, how they end,
//! the status, also where they are stuck or their turns are spent, and the nodes of the tree by their numbers, with serials. And where a start
//! whose walks are calm is refused, so is the other one, with the same error: without an identity (`machines_agree`), and where processes are
//! told one, with which a machine with mounts runs as one that the watcher of identities watches (`fakers_watch`, `faked_machines_agree`). Of two
//! runs that come to the same the same bytes, answer and listing are put.
//!
//! Laws of what the same words and sources begin on both machines, over the definitions that the clauses of `proot` speak of, and no code. Words
//! that ask for no generated case and not for mounts begin with a tracer (`words_begin_traced`). Where words are bytes, the sources were read and
//! the bindings settle, and it isn't asked whether the run was calm: of a calm run over mounts the report is that of what begins with a tracer;
//! and where a start whose walks are calm is refused, so is the other one, with the same answer (`openings_agree`). Bindings that don't settle
//! are refused alike (`refusals_agree`).
//!
//! # `watchers`
//!
//! Watchers leave a state that has bytes: laws, and no code.
//!
//! That watchers leave bytes at the stops of calls, and no code: the watcher of identities (`fakers_watch_bytes`), and the tracer as long as its
//! bindings have texts of bytes (`tracers_watch_bytes`).
#![tactic(auto)]

pub mod below;
pub mod given;
pub mod laws;
pub mod openings;
pub mod starting;
pub mod watchers;
