//! Tests of option words, of probes and of generated cases.
//!
//! # `host`, `probes`, `written`
//!
//! Tests of probes as they are written, and of what they do: loaded and run on the processor alone, with each call answered from a list.
//!
//! # `cases`
//!
//! Tests of generated cases.
#![tactic(auto)]

#[cfg(test)]
mod cases;
#[cfg(test)]
mod host;
#[cfg(test)]
mod probes;
#[cfg(test)]
mod tests;
#[cfg(test)]
mod written;
