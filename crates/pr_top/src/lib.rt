//! The opening of the public call, and its report: words, a listing, an ELF file and an input make a run, whose report is put to three sinks;
//! or words ask for a generated case, which both machines run.
//!
//! What is proved, with the clause or the law that carries it:
//!
//! The opening of words and sources, and the report of what it begins. `open` answers the opening's refusal for the words and the bytes that the
//! sources gave in the call, or a run that is ready, or a fault of a source, or want of memory (`opens`, `kinds`, `ready`; `read`: but for an
//! early end, what the words ask for was read), with what each source gave (`gives`), what was read to its end (`ends`), the causes of the
//! faults and what isn't touched (`causes` to `input_takes`);
//! `Opened::report` runs it and puts its report (`AnswersReport`), over mounts on a kernel that keeps marks only where calm is asked. The opening is
//! a definition in stages (`opening`), the run is that of the kernel with mounts or of the plain one with its tracer (`mounted_run`, `traced_run`),
//! and the report a function of the run (`report`). With `--case` the opening is that of the case of the number (`case_begun`), the watched machine
//! first; both are run, and the report is the case's.
//! pr_call takes it up.
//!
//! Only tested, or not shown: Tests of it are pr_call's.
//!
//! # `again`
//!
//! Laws of the top call.
//!
//! A law of the top call, and no code: where the tree that a run left can be listed within the limit, a second call on that listing, whose words
//! and other sources aren't refused, opens on a tree in which each text names the like (`listings_left_are_read_again`). That such a tree is kept
//! is a premise; each turn of the code leaves a kept one.
#![tactic(auto)]

pub mod again;
pub mod below;
mod generated;
mod opening;

pub use opening::{Opened, open};
