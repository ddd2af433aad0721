//! What those above name of the crates below.

pub use kr_stops::{Handed, NOTHING_HANDED, Stops, Tracee, Unwatched};
pub use rv_cpu::Event;
pub use rv_cpu::below::pr_base::{Bytes, NoMemory, Texts};
pub use rv_cpu::below::rv_mem::{BadAddress, StoreFault, Use};
