//! Rows of whole runs as a text: what is handed to a run, and what must come of it.
//!
//! The text is a sequence of blocks. A blank line ends a block, and a line that begins with `#` is a comment, wherever it stands. The first line of a
//! block says what it is:
//!
//! - `listing NAME`: the lines below are a listing, as they are;
//! - `guest NAME`: the lines below are steps of a guest, parted by `;`, as the crate `guests` reads them;
//! - `code NAME`: each line below begins with a word of code, as eight hex digits, and the rest of the line is a comment; a line `text T` puts the
//!   bytes of a text behind the code;
//! - `file NAME`: the lines below are hex digits, the bytes of an ELF file;
//! - `default`: the keys below stand in each row that follows, up to the next such block, where the row hasn't that key itself;
//! - `row WHAT IT SHOWS`: the keys below make a row.
//!
//! A key stands at the head of its line, with a blank and its value behind it. What is run:
//!
//! - `words W`: the words of the call, between blanks, without those that choose the machine; `''` is an empty one;
//! - `options W`: words that are put before them; with several such lines the row is run with each of them in turn;
//! - `listing NAME`, and `line L` for each line that is added at its end, or `tree T` in their place: the very bytes of the listing;
//! - `guest STEPS` or `program NAME`: the ELF file, by steps (lines are joined by `;`), or by the name of a block; `hello` is the hello file, and
//!   is taken where there is neither; `first STEPS`, `last STEPS`: steps that are put before those of `guest`, and behind them;
//! - `put AT HEX`: bytes that are written over the ELF file at that place; `cut N`, or `cut N M`: the file is cut to so many bytes, or to each
//!   number from N to M;
//! - `input T`: the input;
//! - `only traced`, `only native`: the row is run on one machine only.
//!
//! What must come:
//!
//! - `out T`, and `traced T` for the machine with a tracer where that puts out something else; `err T`;
//! - `calm yes`, `calm 3`: no rule is broken over mounts, or this one; where one is, and there is no `traced`, the row is run over mounts alone;
//! - `answer STATUS LINE`: the status, and what the program tells on its last line behind `proot: `; without it the status 0, and no line;
//! - `left NAME`: the listing that is left is the one of that name, where a line `x` stands for the line `f` with the bytes of the ELF file;
//!   `has L` and `lacks L`: a line that it has, and one that it hasn't. Without `left` both machines leave the same, where they put out the same,
//!   and nothing where the run was refused.
//!
//! In values and in steps `{255 a}` is 255 times `a`, also inside one another; `\n`, `\0`, `\\` and `\xhh` are a newline, a zero byte, a backslash
//! and the byte hh. In lines of listings a last field `HELLO` is the hello file in hex digits.
#![tactic(auto)]

pub mod below;
mod called;
mod defaults;
mod differing;
mod failed;
mod faults;
mod files;
mod keys;
mod lines;
mod parts;
mod runs;
mod scenes;
mod text;
mod wants;

pub use called::{Runner, Told};
pub use failed::Failed;
pub use faults::{Fault, Why};
pub use runs::{Tally, run_rows};
