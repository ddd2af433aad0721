//! Tests of calls: decoding, the structures of answers, changes of a state, and pipes.
//!
//! # `ops`
//!
//! What changes of a state answer with ample memory, and what they leave. All of it was worked out by hand.
//!
//! # `guest`, `files`
//!
//! Tests of pipes.
#![tactic(auto)]

#[cfg(test)]
mod decoded;
#[cfg(test)]
mod files;
#[cfg(test)]
mod guest;
#[cfg(test)]
mod ops;
