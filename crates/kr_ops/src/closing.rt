//! Descriptors that go together.
ghost use Rattle.std.specs.Prelude.{◌≡◌};
ghost use Rattle.law_lawful.specs.kr_model.Applied.{close_below};
ghost use Rattle.law_lawful.specs.kr_model.Change.{CloseOnExec};
ghost use Rattle.kr_ops.specs.Meaning.{meaning};
ghost use Rattle.kr_ops.specs.Making.{Makes};
ghost use Rattle.kr_ops.specs.Sound.{IsOfView, IsServed};

use crate::state::State;
use law_lawful::below::DESCRIPTORS;

impl<T: Copy, const M: u8> State<T, M> {
    /// Closes each descriptor of a process.
    pub(crate) fn close_all(&mut self, pid: u32)
        requires { IsOfView self.old }
        ensures closed { meaning self.new ≡ close_below pid 1024 (meaning self.old) }
        ensures served { IsServed self.new }
    {
        for fd in 0..DESCRIPTORS {
            self.close(pid, fd);
        }
    }

    /// Closes each descriptor of a process that a new program doesn't get.
    pub fn close_on_exec(&mut self, pid: u32)
        requires { IsOfView self.old }
        ensures makes { Makes pid CloseOnExec self.old self.new }
        ensures served { IsServed self.new }
    {
        for fd in 0..DESCRIPTORS {
            if self.cloexec(pid, fd).unwrap_or(false) {
                self.close(pid, fd);
            }
        }
    }
}
