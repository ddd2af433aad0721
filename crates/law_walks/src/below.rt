//! What those above name of the crates below.

pub use kr_model::below::{Descs, Files, FilesRefusal, Opened, Places, What};
pub use kr_mounts::{BindFault, BindWhy, MountNumber, Mounted, settle};
pub use pt_canon::below::pt_bind::Table;
