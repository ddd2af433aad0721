//! What every crate of the project speaks of: bytes, want of memory, error numbers, paths and bindings.
//!
//! What is proved, with the clause or the law that carries it:
//!
//! Bytes, texts, want of memory, error numbers, bits of a word, little-endian fields, paths, flags of calls, limits, decimal digits, bindings,
//! what a tracer may ask, the rules of walks, finite maps.
//!
//! `Errno::number` is the number of errno(3) (`errno_number`).
//!
//! `bits<HI, LO>` is those bits of a word; `field_u16`, `field_u32` and `field_u64` give the little-endian number at a place exactly where it
//! fits (`IsField`).
//!
//! Each call of `Bytes` and of `Texts` is the change of a list that its name says; after want of memory both are as before.
//!
//! `components` gives the parts of a path between its slashes in order (`parts_left`), whether it is absolute, has a slash behind its last
//! component, and what it ends with (`is_absolute`, `has_slash`, `last_kind`); `is_walked` tells of a path that it isn't empty and has at most
//! 4,095 bytes. Whatever bytes a path has, what stands between its slashes is `.`, `..` or a name (`paths_have_components`). The bytes of a text
//! are a path from the root without a slash behind (`texts_are_absolute`), tell the text (`texts_are_told_apart`) and have its names as
//! components, also names that no entry can have (`texts_have_their_names`); paths join (`paths_join`); what lies below a text is what stands in
//! front of it (`names_stand_in_front`).
//!
//! The rules of a walk are a definition here (`walk`); no code of this crate follows it. A walk goes component by component
//! (`walks_go_by_components`); what it found is what its last component shows (`found_is_shown`) or where a link of the process directory leads
//! (`jump_is_shown`); walks over two ways of looking that are alike end alike (`walks_end_alike`),
//! and are one walk where they show the same at each of its looks (`walks_agree`); what the looks of a walk keep holds all along it (`walks_keep`). Its trail tells where the links of the process
//! directory led that it followed.
//!
//! `Peeks` is what a tracer may ask of a kernel: each call answers its function's value or want of memory and changes none of these values
//! (`answer`, `same`, `rest`); a name that is there is a text (`names_are_texts`).
//!
//! `OpenFlags::from_bits` and `AtFlags::from_bits` are Some exactly where all bits are those of the flags' table (the contract of the kit's
//! `Flags` over the tables that stand with both types).
//!
//! Finite maps with the same values are one, and a change shows at its key alone (`maps_change`).
//!
//! Only tested, or not shown: 29 walks are worked out by hand; `ground_tests`.
#![tactic(auto)]

pub mod bind;
pub mod bytes;
pub mod digits;
pub mod errno;
pub mod fields;
pub mod flags;
pub mod laws;
pub mod limits;
pub mod memory;
pub mod page;
pub mod path;
pub mod peeks;
pub mod texts;
pub mod word;

pub use bind::{Bind, Bound};
pub use bytes::Bytes;
pub use digits::are_digits;
pub use errno::Errno;
pub use fields::{field_u16, field_u32, field_u64};
pub use flags::{AtFlags, OpenFlags};
pub use memory::NoMemory;
pub use page::PAGE_SIZE;
pub use path::{Last, Parts, PartsLeft, WalkMode, components, is_walked};
pub use peeks::{BaseKind, PeekFault, PeekKind, Peeks};
pub use texts::Texts;
pub use word::bits;
