//! What a call of a guest does, as definitions: the state of a kernel as plain data, what a call may ask of it, the
//! changes that it makes, and each call as a tree of memory actions that ends in a list of changes.
//!
//! What is proved, with the clause or the law that carries it:
//!
//! What calls do, as definitions. kr_ops and the crates of calls above it follow them.
//!
//! The state of a kernel as plain data, what calls ask of it (`known`), what they are told of their paths (`seen`), a small vocabulary of changes
//! and what each makes of a state (`applied`), and each call but execve as a tree of memory actions that ends in an answer and a list of changes,
//! one definition for each row in the order of its tests (`operation`). Execve has a definition of its own, with its loader (kr_execve): what
//! stands in its place here is not the call, and the laws below on what calls answer and change leave it out by name (`IsNoExec`).
//!
//! What calls ask of a state is asked of its bare part alone, without mounts, holds of mounts, registers and bytes of memory (`known_is_bare`).
//! Equal bare parts and equal facts give equal replies, on memories that are equal but for marked bytes, for every such call at once, as long as
//! no marked byte is read (`calls_alike`). Each change, and so each list of changes, does on the bare part what it does on the whole, where each
//! mount's source is held and named (`changes_are_bare`, `all_changes_are_bare`). Pages that are changed or born stay equal but for marked bytes
//! (`pages_stay_alike`), and a change leaves the processes of two machines alike (`processes_stay_alike`).
//!
//! Each such call keeps to its line in the table of the calls (kr_calls): its changes are of the line's kinds, and it writes, waits and ends its
//! caller only as the line says (`calls_keep_to_their_lines`, `others_leave_memory`). What it is told of its paths goes by the line too (`told`).
//!
//! A call that answers an error has changed nothing and written nothing, and answers ENOSYS only where it is told that of its paths
//! (`refusals_change_nothing`), which no call is (`no_walk_answers_enosys`). A change that isn't judged to alter the shape of the tree, the bytes
//! of files or the slots of processes leaves them as they are (`changes_are_judged`); what has a name keeps one, unless a change takes a name
//! away (`names_stay`).
//!
//! A call that ends its caller is an exit or a write (`only_enders_end`) and changes nothing else: an exit tells its code, and a write SIGPIPE
//! (`ends_are_told`). One that waits is a read, a write or a wait for a child (`waits_are_told`). What doesn't end its caller ends nobody
//! (`answers_end_nobody`).
//!
//! What the host's own view of a state with any mounts shows is defined, and what a tracer is told along it (`specs/HostView.antt`,
//! `Peeks.antt`); names that it is told are the bytes of texts (`told_names_are_texts`).
//!
//! What holds of every state is defined (`specs/Lawful.antt`, `Uses.antt`), and so is when a change can be made, and that it then keeps that
//! (`specs/Conditions.antt`). That they keep it is stated there; law_lawful carries it.
//!
//! Only tested, or not shown: Some results are worked out by hand (`proofs/OperationRows.antt`).
#![tactic(auto)]

pub mod below;
pub mod laws;
pub mod outcome;

pub use outcome::Outcome;
