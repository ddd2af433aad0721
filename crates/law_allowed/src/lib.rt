//! Laws of calls: the changes that each of them replies can all be made, and so it leaves a lawful state; and laws of what lasts from call
//! to call beside that.
//!
//! What is proved, with the clause or the law that carries it:
//!
//! Laws of what lasts from call to call beside that a state is lawful, and no code: no text of a link has a zero byte, owners and the user have
//! 32 bits, and of the numbers that are drawn in order (of inodes, serials, open files, pipes and processes) enough are left.
//!
//! Changes that can all be made keep it (`modest_changes_last`), where what they make belongs to the user, a link that they make has a text, and
//! they draw no number twice (`AreModest`).
//!
//! Before 2^31 calls were made each number that the next one draws is one of the machine's, and serials of entries are below 2^63
//! (`lasting_has_room`).
//!
//! Laws of calls, and no code.
//!
//! Every call but execve leaves a lawful state: carried out on the memory of a living caller, its reads and writes alone leave one, the changes
//! that it replies can then all be made, one behind the other, and with them the state is lawful (`operation_is_allowed`; what that says is
//! `LeavesLawful`). What it makes belongs to the user, and it draws no number twice (`modest`). A call whose line in the table of the calls
//! says that it changes nothing is allowed by that alone (`silent_calls_are_allowed`); the rows of the others are gone through group by group:
//! descriptors, processes, memory, files, attributes, directories, names, and openat.
//!
//! What calls rest on beside that is named. The caller's memory holds bytes (`HoldsBytes`). Owners and process numbers have 32 bits, and serials
//! of entries 63, which chown and getdents64 write and keep (`HasSmallNumbers`). Arguments are two descriptors of dup3 that aren't one, owners of
//! 32 bits and texts of links (`IsGivable`), and paths are texts of bytes, none of them zero (`HasTextPaths`), as decoding gives both
//! (`decoded_are_givable`). What a call is told of its paths is so (`IsToldIn`), as it is told of targets that walks give (`targets_are_told`,
//! `calls_leave_lawful`).
//!
//! Of a target what was found is a place of the view, a name under which nothing was found is well-formed and free, and what was found where a
//! name was to be taken away, and no mount stands, is its entry (`AreTargetsIn`). The walks of a call over a lawful state give such targets
//! (`walks_give_targets`, `calls_walk_to_targets`), where process links lead to places of the view and the names of targets are good
//! (`HasGoodName`), among them those of the files that mounts lead to (`settled_sources_are_named`); so every such call with its walks leaves a
//! lawful state (`walked_calls_leave_lawful`).
//!
//! An execve has a definition of its own, and is left out by name (`IsNoExec`).
//!
//! # `others`
//!
//! What a call leaves of the processes other than its caller: registers, memory, descriptors and all else that is theirs.
//!
//! Laws of what a call leaves of the processes other than its caller, and no code. A change leaves each of them alive, with the registers,
//! memory, break, descriptors, places and mask that it had, and still at the call where it waits (`others_live_on`), and so do all changes of a
//! call (`all_others_live_on`). It changes two things of another process: who its parent is, where that ends, and the remembered entry of its
//! executable, where a name is moved or removed. What is done to one process alone leaves the others just as they are (`others_stay`). law_kept
//! takes it up.
#![tactic(auto)]

pub mod below;
pub mod lasting;
pub mod laws;
pub mod others;
