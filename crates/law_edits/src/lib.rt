//! What is read, decoded and answered at the stops of calls is the same on both machines: laws, and no code.
//!
//! What is proved, with the clause or the law that carries it:
//!
//! What is decoded of a call whose paths a tracer swapped, and no code. Where the texts of its paths stand on the shelf and their addresses in
//! the registers of the paths, its request has the new texts and is the same in all else (`swapped_texts_are_decoded`, `swaps_are_decoded`): a
//! text that is no path, and a path that stays, are read as before, since the other machine, whose shelf is marked, reads no marked byte for
//! them. What was written is marked there, and so is all of the shelf (`shelves_are_marked`). Decoding leaves the pages as they are
//! (`decodings_leave_pages` of kr_calls). The paths of such a request have these texts and are walked as before (`paths_are_swapped`), and where the same is
//! told of them, a call other than execve(2) comes to the same (`operations_are_same`). The edit puts the texts of where the paths lead
//! (`walks_are_swapped`). Registers with the number of no call are refused, and no byte is read (`no_calls_are_decoded`).
//!
//! Only tested, or not shown: What this makes of the stops of a whole call: law_stops and law_paths.
//!
//! # `showing`
//!
//! What watchers do for identities comes to the same in memories that are equal but for marked bytes: laws, and no code.
//!
//! Two laws of what an identity makes of memories that are equal but for marked bytes, and no code: a call on users and groups that reads no
//! marked byte is answered alike (`effects_are_done_alike`), and where the bytes of a `stat` were just written its owner and its mode are shown
//! alike, with what is remembered of its file (`owners_are_shown_alike`).
//!
//! # `fresh`
//!
//! Memories of new programs have no mark: laws, and no code.
//!
//! Laws of memories without a mark, and no code. Whatever is done in such a memory leaves it so and reads none (`fresh_memories_stay`); the image
//! of a program has none (`images_are_fresh`), nor has that of a program that execve(2) comes to (`programs_are_fresh`), so that telling it who
//! it is reads none (`beginnings_read_no_mark`).
//!
//! # `reading`
//!
//! The lists of texts of execve(2), as the kernel and a tracer read them: laws, and no code.
//!
//! Laws of the lists of execve(2), and no code. On a memory whose pages lie where they may, a tracer reads by peeks what the kernel reads, from
//! the same bytes and with the same error (`lists_are_read_alike`); and so on memories that are equal but for marked bytes, where the kernel
//! reads none of these (`shown_lists_are_read_alike`).
//!
//! # `answers`, `shelves`, `short`
//!
//! Calls that a tracer answers itself, and what it puts on the shelf: laws, and no code.
//!
//! Laws of calls that the tracer answers itself, and no code. A call along a path has the number of one (`paths_have_numbers`), a calm one has a
//! shelf (`calm_calls_have_shelves`, `shelves_are_seen`), getcwd(2) is answered alike (`cwds_are_answered_alike`), and texts in place of paths
//! are short where the walks reached no long name (`swaps_are_short`).
//!
//! Only tested, or not shown: readlinkat(2) as a whole: law_plans has it.
#![tactic(auto)]

pub mod answers;
pub mod below;
pub mod fresh;
pub mod laws;
pub mod reading;
pub mod shelves;
pub mod short;
pub mod showing;
pub mod stops;
