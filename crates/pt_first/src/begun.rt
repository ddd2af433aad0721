//! What begins.

use kr_first::First;

/// The first process in host terms, with the indices of the bindings to which the guest texts of its working directory and of the program
/// that runs belong.
#[derive(Drop)]
pub struct Begun {
    pub first: First,
    pub cwd: u32,
    pub exe: u32,
}
