//! Living processes by their numbers.
ghost use Rattle.std.specs.Prelude.{◌≡◌, ℕ, ◌<◌, Some, None, IfSome, length, take};
ghost use Rattle.kr_ops.specs.Living.{HaveOthers, HasPid};

use crate::state::State;

impl<T: Copy, const M: u8> State<T, M> {
    /// Where the living process of a number stands in the list, `None` exactly where there is none.
    pub fn index_of(&self, pid: u32) -> Option<usize>
        ensures none { result ≡ None → HaveOthers pid self.now.living.items }
        ensures some { IfSome result (λ k. HasPid pid k self.now.living.items) }
    {
        for k in 0..self.living.len() {
            if self.living[k].pid == pid {
                return Some(k);
            }
        }
        None
    }
}
