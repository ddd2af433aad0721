//! Pages of memory.

/// How many bytes a page has.
pub const PAGE_SIZE: u64 = 4096;
