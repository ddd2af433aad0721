//! What a tracer plans for the paths of a call agrees with what the kernel with mounts sees, and is short: laws, and no code.
//!
//! What is proved, with the clause or the law that carries it:
//!
//! Laws of what a tracer plans for the paths of a call, where a state of the kernel with mounts and one of the plain kernel match, and no code. A
//! path begins nowhere for the tracer and both kernels, or at a place and at a guest text at which it stands (`bases_agree`); it stays as it is
//! and fails for both kernels alike, its walk fails for the tracer as for the kernel with mounts, or it leads somewhere for both (`paths_agree`).
//! Along the text that takes its place the plain kernel is told the same of what is looked up, made, taken away or opened; mount points that
//! would be taken away, and names with a slash behind them that would be made files, are known to the tracer (`swaps_agree`).
//!
//! So a call with one path passes and is told the same, is swapped and comes to the same, with the same mounts to name or refused, or is
//! cancelled with the error with which the kernel with mounts refuses it (`plans_of_one_agree`). So it does with both paths of a call that leads
//! from no mount to another (`plans_agree`). Of a call that looks up one path the very same is told along the text in its place, and where it is
//! cancelled the walk along its path fails, so that both machines lead it to the same target.
//!
//! # `decoded`, `links`, `short`
//!
//! What a tracer puts in place of the paths of calm calls is short, and what it answers of links itself: laws, and no code.
//!
//! Laws of plans of calm calls and of links that a tracer answers, and no code. Where no path of a call leads to a host name of more than 4,000
//! bytes, there is a plan that agrees, with texts of at most 4,095 bytes (`plans_are_short`); texts that are shelved in place of paths are that
//! short, or the call is cancelled with ENAMETOOLONG as the kernel with mounts refuses it (`shelved_texts_are_short`). readlinkat(2) of a link of
//! the process directory that the tracer answers itself is answered as the kernel with mounts answers it (`links_are_answered_alike`). A call
//! with two paths is decoded with a first one that isn't empty (`first_of_two_is_decoded`), and readlinkat(2) with a positive size
//! (`counts_are_decoded`).
#![tactic(auto)]

pub mod decoded;
pub mod links;
pub mod paths;
pub mod plans;
pub mod short;
