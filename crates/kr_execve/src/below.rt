//! What those above name of the crates below.

pub use kr_exec::below::Place;
pub use kr_exec::below::kr_calls::{CallFault, Request};
pub use kr_exec::below::kr_walk::resolve;
pub use kr_exec::{ExecPlan, Lists, find_exec, plan_exec};
pub use kr_perform::below::{NoProcs, Places, Plain, Reach, WalkFault};
