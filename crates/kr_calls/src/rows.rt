//! The calls, one function for each.

pub mod descriptors;
pub mod files;
pub mod identity;
pub mod memory;
pub mod names;
pub mod processes;
mod texts;
