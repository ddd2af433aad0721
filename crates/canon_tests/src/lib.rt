//! Tests of tables of bindings, of tags, and of walks over guest texts.
//!
//! # `tables`, `tags`, `bindings`, `texts`
//!
//! Tests of tables of bindings, over tables that other tests share, and of tags.
#![tactic(auto)]

#[cfg(test)]
mod bindings;
#[cfg(test)]
mod kernel;
#[cfg(test)]
mod tables;
#[cfg(test)]
mod tags;
#[cfg(test)]
mod tests;
#[cfg(test)]
mod texts;
pub mod told;
#[cfg(test)]
mod walking;
