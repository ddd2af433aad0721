//! What calls and turns leave alone: bytes, registers, memories and other processes: laws, and no code.
//!
//! What is proved, with the clause or the law that carries it:
//!
//! Laws of turns, and no code. Code has bytes by their type; definitions have numbers.
//!
//! A state has bytes (`HasBytes`) where files, names and texts of the tree, memories, what executables and open files remember, pipes and the
//! input are made of bytes. That lasts behind instructions (`instructions_keep_bytes`), which also leave each process its 32 registers
//! (`instructions_keep_registers`), behind changes that bring bytes, whether they can be made or not (`changes_keep_bytes`), behind each call
//! other than execve(2), whatever its walks come to (`calls_keep_bytes`), behind a new program (`executions_keep_bytes`), and so behind any call
//! from its decoding on (`plain_calls_keep_bytes`). So it lasts behind a turn and a run (`turns_keep_bytes`, `runs_keep_bytes`), with a watcher
//! that leaves bytes at its stops, as nobody does (`nobody_watches_bytes`) and as one does that puts bytes into memory (`edits_keep_bytes`).
//!
//! It asks that the table of mounts has bytes, as the host's own view has and each that was settled in a tree of bytes (`tables_have_bytes`). A
//! start has bytes, of a tree, an input and words that have (`starts_have_bytes`, `beginnings_have_bytes`).
//!
//! Only tested, or not shown: That the two watchers leave bytes is law_machines'.
//!
//! # `images`
//!
//! A process's registers and memory, beside what its calls change: a call with a path leaves both alone.
//!
//! Laws of calls that leave registers alone, and no code. All changes but those of pages, of a child and of a new program are the same before and
//! behind other registers and another memory of their caller (`changes_stand_apart`). So a caller that had other registers for the time of a call
//! that answered, and is given its own behind it, with the answer, is what it is where it had its own all the time (`registers_given_back`). Each
//! call that has a path, but for execve(2), and getcwd(2) (`paths_are_told`) comes to such changes (`path_calls_leave_images`), and answers
//! (`path_calls_answer`). law_stops takes it up.
//!
//! # `memories`
//!
//! What a turn does, and what it leaves: the other processes keep all that is their own, one that runs does an instruction at least,
//! and where none can run nothing changes.
//!
//! Laws of turns, and no code.
//!
//! With any watcher that edits at most the process which stands at a stop (`EditsItsOwn`), a turn leaves each other living process alive, with
//! its registers and its memory, its descriptors and where it stands (`others_live_on_in_turns`), whatever is called and whatever ends it.
//!
//! Where some are ready, a turn runs one of them, whatever the pick, and with fuel it does an instruction at least; a call is one
//! (`one_that_is_ready_runs`). Where none is ready, as where none lives, nothing changes (`nothing_changes_where_none_is_ready`).
#![tactic(auto)]

pub mod calls;
pub mod images;
pub mod laws;
pub mod memories;
pub mod starts;
pub mod turns;
