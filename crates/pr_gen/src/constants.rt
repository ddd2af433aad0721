//! Where a probe's data stands, and the numbers of the calls that it makes by itself.
//!
//! The data is: 2,048 bytes of answers, eight a step; the buffer of 4,096 bytes; eight bytes, of which
//! the first is for a newline behind a full buffer; 24 bytes for the text of a number; eight bytes that
//! stay zero, which each empty list is; then texts and lists in the order of the steps. Places are counted
//! from the buffer on.

/// The answer of step 0.
pub(crate) const ANSWERS: i64 = -2048;
/// The last byte of a number's text: it is written from there down.
pub(crate) const NUMBER_LAST: i64 = 31;
/// A list without texts.
pub(crate) const EMPTY_LIST: u64 = 4096 + 32;
/// The first text, and so the end of the data that begins as zeros.
pub(crate) const TEXTS: u64 = EMPTY_LIST + 8;
/// Those bytes: the answers, and what stands from the buffer up to the texts.
pub(crate) const ZEROS: usize = 2048 + 4096 + 40;

/// The most bytes of the buffer.
pub(crate) const BUF_BYTES: i64 = 4096;

/// The end of the code, where the data begins.
pub(crate) const END: u32 = 0;
/// The routine that shows a number.
pub(crate) const SHOW_NUMBER: u32 = 1;
/// The routine that shows the buffer.
pub(crate) const SHOW_CONTENT: u32 = 2;

/// The numbers of `write`, `exit` and `clone`.
pub(crate) const WRITE: i64 = 64;

pub(crate) const EXIT: i64 = 93;

pub(crate) const CLONE: u16 = 220;
