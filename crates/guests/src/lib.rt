//! Guests that tests run: texts of calls, words of code, and a program and a listing that several of them read.
//!
//! # `fixtures`
//!
//! What the tests of several crates stand on: a program and a listing.
#![tactic(auto)]

pub mod below;
mod fixtures;
mod text;

pub use fixtures::{DATA, HELLO};
pub use text::{GuestFault, coded, guest};
