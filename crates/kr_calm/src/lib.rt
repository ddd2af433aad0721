//! The six calm rules: which runs of a kernel with mounts a tracer gives as well.
//!
//! What is proved, with the clause or the law that carries it:
//!
//! The calm rules, as definitions and as tests in code. kr_turns judges by it.
//!
//! `Rule` is one of the six, and `number` that by which it is told. `broken_in` is the smallest rule that a turn broke, by what it did: the
//! caller's memory, the walks of its call, the changes that were made, and what the walks reached.
//!
//! A directory is found to stand above another exactly where the way up comes to it (`steps_are_enough`). Quiet changes break none of the rules
//! on changes (`quiet_changes_break_none`), nor does a refused call (`refused_calls_break_none`). A marked byte that was read stays read
//! (`marks_stay_read`). What stands above a place by guest names stands above it by host names or above a mount (`guest_names_go_by_mounts`).
//! What unlinkat, renameat2 and chmod change is known from what they are told of their paths and from whether they answer 0
//! (`rows_make_at_zero`).
//!
//! `mark_shelf` marks the shelf of a call with a path, or tells that there is none. `crosses` is the rule on links and renames.
//! `removal_takes_source`, `rename_takes_source`, `removal_takes_used`, `rename_takes_used` and `end_takes_used` are the rules on what is taken
//! away; `may_not_be_shut` before a call and `was_shut` after it are that on search; `reaches_too_far` is that on names. Each costs at most the
//! number of bindings, or of descriptors, times the depth of a name.
//!
//! `foresee` tells before a call what it would break of the rules on what is really changed; `judge` tells after it the smallest of these that it
//! broke, by what was foreseen, its outcome and the state that it left. `note_list` notes what a writev(2) reads of its list before it ends its
//! caller (`IsNoted`). That calls make what is foreseen of them exactly where they answer 0, and that other calls, execve(2) apart, make no
//! change at which a rule looks, are laws (`foreseen_calls_make_it`, `other_calls_are_unjudged` and the laws like them).
//!
//! Only tested, or not shown: Rows on a small machine are worked out by hand (`WorkedRules`); `rows` break each rule and nearly break it.
#![tactic(auto)]

mod above;
mod breaking;
mod crossing;
mod foreseeing;
mod judging;
pub mod laws;
mod noting;
mod reach;
mod rows;
mod rule;
mod shelf;
mod uses;

pub use breaking::judge;
pub use crossing::crosses;
pub use foreseeing::{Foreseen, foresee};
pub use judging::end_takes_used;
pub use noting::note_list;
pub use reach::reaches_too_far;
pub use rule::Rule;
pub use shelf::mark_shelf;
