//! Calls on what paths and descriptors lead to: rights, modes, owners, stat(2), the texts of links, and the working directory.
//!
//! What is proved, with the clause or the law that carries it:
//!
//! Calls that ask or set what files are, and where a process stands, carried out on a state of kr_ops over any view. A module for each subject has
//! a function for each call, with a path or with a descriptor.
//!
//! Each answers the outcome of its row and leaves what the row's reply makes of the state (`Performs`, and `PerformsAt` with a path); what the
//! code keeps beside a state's meaning stays kept (`served`). readlinkat tells the texts of the process directory's links too, and getcwd the
//! guest name of the working directory. They ask for a sound state, those two for a lawful one, and some for a living caller.
//!
//! Only tested, or not shown: `rows`.
#![tactic(auto)]

pub mod directories;
pub mod found;
pub mod links;
pub mod modes;
pub mod names;
pub mod owners;
pub mod rights;
pub mod stats;
