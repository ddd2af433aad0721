//! The instructions of RV64I and of the extensions M and A: what a word means, and the word of an
//! instruction. Sources: the RISC-V unprivileged specification, its chapters on RV32I, RV64I, M and A
//! and its listings of instructions.
//!
//! What is proved, with the clause or the law that carries it:
//!
//! The instruction table of RV64I with the extensions M and A, 87 rows.
//!
//! `decode` gives a row's instruction exactly where that row matches, and none exactly where none does (`value`, `matched`, `unmatched`); no word
//! matches two rows (`single`); what is decoded is valid (`valid`), and its word is the one that was decoded, FENCE apart (`back`).
//!
//! `valid` is true exactly where each field is in its range (`in_range`), which is exactly where some word decodes to the instruction
//! (`has_word`).
//!
//! `encode` gives a word that decodes to the instruction (`back`), and for all but FENCE the only one (`only`).
//!
//! `Small::of` keeps an instruction in eight bytes, and `is_instr` is true of nothing that stands for none (`instr_of`).
//!
//! Only tested, or not shown: That the rows are those of the manual: a word for each mnemonic as llvm-mc 14 gives it, compared with `decode` and
//! `encode` (the rows of `rv_rows`).
#![tactic(auto)]

pub mod below;
mod decoding;
mod encoding;
mod fields;
mod instr;
mod layout;
mod small;

pub use decoding::decode;
pub use encoding::{encode, valid};
pub use instr::Instr;
pub use small::Small;
