//! What two states that match do alike in a turn, and what calls along paths bring into use: laws, and no code.
//!
//! What is proved, with the clause or the law that carries it:
//!
//! What two states that match do alike in a turn, what two machines that match come to, and no code. At each pick the same process runs, and
//! where none can, both are over or both are stuck (`matches_go_on_alike`). Its instructions end alike and leave a match, where no marked byte is
//! read (`instructions_keep_matches`); the call at which it stands is decoded alike (`decodings_keep_matches`), and a shelf that the kernel with
//! mounts marks leaves a match (`shelves_keep_matches`). The changes of a call, made in both, leave a match, where they break none of the calm
//! rules on changes, can be made in both, each new place stands before it comes into use, and names move inside alone, as above
//! (`moves_keep_matches`, `changes_keep_matches`). So a call that is such, on equal requests and on what is told alike of its paths, is answered
//! alike and leaves a match, with what its caller is told (`calls_keep_matches`); behind its first stop a whole call other than execve(2) is such
//! on both where the same is told of its paths, or is refused alike (`calls_come_alike`, `refused_calls_come_alike`), and a calm call without a
//! path is, in lawful states, where the caller's memory holds bytes (`pathless_calls_come_alike`); on either kernel a call other than execve(2)
//! is allowed, and leaves a lawful state with what lasts (`calls_last`, `refused_calls_last`); behind a call that ends nobody and begins no
//! program the caller's registers are as before, but for its answer and where it goes on (`calls_keep_registers`, `changes_keep_registers`); and
//! so does a death by a signal that breaks no calm rule (`deaths_keep_matches`). A whole turn in which no call is made keeps the match of two
//! machines (`quiet_turns_keep_matches`), and that both are lawful with what lasts (`quiet_turns_go_together`). Where all turns that break no
//! rule do, which is a premise, a calm run and that of the plain machine put the same bytes in each turn, end alike with the same status, and
//! leave the same nodes (`runs_come_alike`).
//!
//! Only tested, or not shown: That each turn does, so that the premise is met: law_machines (`whole_turns_go_together`).
//!
//! # `paths`
//!
//! What calls with a path bring into use, and where they move names: laws, and no code.
//!
//! Laws of what calls along paths do to places, and no code. What such a call brings into use stands at the place to which its walk came
//! (`path_calls_bring_standing`), a name that it moves stays inside the mounts (`path_calls_move_inside`), a call that breaks no calm rule keeps
//! the rules on changes on the plain kernel too (`path_calls_are_calm`), what is noted of it has the mount's index (`path_calls_are_noted`), and
//! texts have the indices of their places (`texts_have_indices`).
#![tactic(auto)]

pub mod below;
pub mod changing;
pub mod operating;
pub mod paths;
pub mod running;
pub mod turning;
