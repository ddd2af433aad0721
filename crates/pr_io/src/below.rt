//! What those above name of the crates below.

pub use pr_base::{
    Bytes, Errno, Last, NoMemory, Texts, bits, components, field_u16, field_u32, field_u64,
};
