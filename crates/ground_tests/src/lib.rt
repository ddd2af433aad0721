//! Tests of bytes, paths and numbers, of sources and sinks, of names in the process directory, of trees, listings and walks, and of remembered owners.
#![tactic(auto)]

#[cfg(test)]
mod base;
#[cfg(test)]
mod listings;
#[cfg(test)]
mod moves;
#[cfg(test)]
mod names;
#[cfg(test)]
mod owners;
#[cfg(test)]
mod trees;
#[cfg(test)]
mod walking;
#[cfg(test)]
mod walks;
