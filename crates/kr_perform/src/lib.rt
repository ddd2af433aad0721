//! Calls other than execve(2) carried out on a state: their rows, and the walks of their paths before them.
//!
//! What is proved, with the clause or the law that carries it:
//!
//! Any call but execve(2) carried out on a state, over all crates of rows. `carry_out` takes it up.
//!
//! `perform` leaves what the reply of the definition makes of the state, and answers its outcome, of what the call is told of the targets of its
//! paths (`OperatesAt`; the definition is `operation`), for every view. A path that isn't walked is ENOENT. After want of memory nothing is
//! promised; else what the code keeps beside a state's meaning stays kept (`served`).
//!
//! It asks for a lawful state, a living caller, a request that decoding can give (`IsGivable`), targets as `walks_resolve` gives them
//! (`AreResolved`), and numbers that aren't used up (`HasNumbers`).
//!
//! Law: what is left of a lawful state where a call was carried out is lawful again, want of memory aside, and what lasts of it lasts
//! (`performed_states_last`), where the caller's memory holds bytes and what the call is told of its targets is so, as law_allowed names it.
//! `perform` itself promises no lawful state: `carry_out` meets what this law asks for, and promises one.
//!
//! Only tested, or not shown: `rows`.
//!
//! # `altering`
//!
//! What a call alters is told before it is carried out, of what its paths lead to and of what is open: the modes, owners, names and sizes that it
//! would set are compared with those that are there (`IsAhead`). Only a write's bytes are compared as they are written.
//!
//! # `resolving`
//!
//! What calls rest on of the targets of their paths.
//!
//! Laws of the targets of a call's paths over a lawful state, and no code.
//!
//! They are what rows rest on (`walks_resolve`). What was found is in the tree; a free name is well-formed and no entry; and where a last link
//! isn't followed a name that was found, and that no mount covers, is the entry of that name. The texts of the call must have no zero byte, and
//! where a file may be made behind a last link, those of the tree's links too, which calls keep so (law_allowed).
//!
//! Their names are good, as law_allowed asks (`walks_name`): a name under which nothing was found is well-formed and of bytes, and a file was
//! found under a well-formed name, or remembers none. The texts of the call must be of bytes, none of them zero, and those of all links of the
//! tree must have no zero byte.
//!
//! # `walked`
//!
//! What calls rest on, of what the walks of their paths lead to.
//!
//! A law, and no code: what a call is told of the targets to which its paths were walked over a lawful state is so, in the mounts of the machine,
//! as law_allowed names it (`resolved_are_told`). It asks of texts what `walks_name` does, and that the sources of mounts that are files were
//! settled at well-formed names, or at none (`SourcesAreNamed`).
//!
//! # `call`
//!
//! Calls with their walks: one function for any request but execve(2), over a state that goes on from call to call.
//!
//! A call with its walks, over a state that goes on from call to call.
//!
//! `carry_out` walks the paths of any call but execve(2) and carries out its row of where they lead (`called`; `IsCalled`), or answers the error
//! of the first walk that fails. What the walks reach is told exactly (`reach`). After want of memory nothing is promised.
//!
//! What it asks of a state it leaves, a call later (`runs`): a lawful state with what lasts, and what the code keeps beside its meaning (`Runs`).
//! It asks for a request that decoding can give, whose paths are texts, for fewer than 2^31 calls before it, for a living caller, and for mounts
//! whose sources have good names.
//!
//! `carry_out_along` does the same of paths that were walked, and tells whether the call altered the shape of the tree, and the bytes of a file
//! (`altered`; `IsAltered`), both exactly: a write of the bytes that stand there and a cut to the size that a file has alter none.
//!
//! Only tested, or not shown: `rows`: guests that make calls one after the other over a small listing, on both machines, with what each answers;
//! every call but execve(2) is among them.
#![tactic(auto)]

pub mod altering;
pub mod asking;
pub mod below;
mod call;
mod changes;
pub mod descriptors;
pub mod laws;
pub mod naming;
mod performing;
pub mod processes;
pub mod resolving;
pub mod walked;

pub use altering::Altered;
pub use call::{Carried, carry_out, carry_out_along};
pub use performing::perform;
