//! The walk of a tracer over guest texts.
//!
//! What is proved, with the clause or the law that carries it:
//!
//! The walk of a tracer over guest texts. pt_args, pt_results and pt_script take it up.
//!
//! `Walker::canon` answers exactly the walk of the definition, or fails as it does, want of memory aside (`answer`): the guest text, its host
//! text and index, what the path ends with, whether a slash stands behind that, and whether something is there. What the kernel tells is as
//! before.
//!
//! A walker remembers the answers of its last walks, 256 at most, the newest first: exactly those whose walks looked at steady host paths alone,
//! while no pause stands (`remembered`). It agrees with a kernel where each of them is what the walk for its key answers now and is steady now;
//! `canon` needs that and leaves it so, with as many pauses (`walker`). Nothing remembered agrees with every kernel (`nothing_agrees`), and
//! agreement goes over to a kernel that tells the same of each steady host path (`agreement_lasts`). A pause empties what is remembered.
//!
//! The walk is that of pr_base over looking at a guest text by what a kernel tells of its host text: the host text must be that of a directory
//! which may be searched, `..` is the text above, and a link of the process directory goes on at the guest text of what it leads to, by its tag.
//! Each case of a look is a law (`texts_are_looked_at`), and a walk along a text without links comes to that text (`texts_lead_to_themselves`).
//!
//! The host text and the index of an answer are those of its guest text (`answers_are_of_their_texts`).
//!
//! Only tested, or not shown: How many peeks a walk takes: three at most for each component, beside those of links, and what it was just told of
//! a place it doesn't ask again; one more tells of a path without a followed link whether it is steady, and one each of what doesn't stand in front
//! of its host text; none does while a pause stands. That what is remembered is looked up. `canon_tests`: walks over a kernel in memory, and how many
//! peeks they take.
#![tactic(auto)]

mod answers;
pub mod below;
pub mod canon;
mod component;
mod ending;
mod guest;
mod host;
mod key;
pub mod laws;
pub mod link;
mod sight;
mod sure;
mod translation;
mod walk;
pub mod walker;

pub use canon::{Canon, WalkErr};
pub use link::ProcessLink;
pub use walker::Walker;
