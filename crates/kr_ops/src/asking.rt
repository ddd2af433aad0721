//! What calls ask of a state.
ghost use Rattle.std.specs.Prelude.{◌≡◌, ◌+◌};
ghost use Rattle.std.specs.List.{find, list_any};
ghost use Rattle.std.specs.Option.{option_copied, option_map};
ghost use Rattle.law_lawful.specs.kr_model.Known.{pages_in_all};
ghost use Rattle.law_lawful.specs.kr_model.MemoryRows.{all_pages};
ghost use Rattle.law_lawful.specs.kr_model.State.{image_layout, named, opened, process};
ghost use Rattle.kr_ops.specs.Children.{is_child, is_ended_child};
ghost use Rattle.kr_ops.specs.Meaning.{meaning, process_meaning};
ghost use Rattle.kr_ops.specs.Opening.{lowest_of, takes_pipe_of};
ghost use Rattle.kr_ops.specs.Sound.{IsServed, IsSound};

use crate::state::{EndedProcess, Process, State};
use law_lawful::below::Opened;

/// Which children wait4(2) means by its first argument.
#[derive(Clone, Copy)]
pub enum Meant {
    Any,
    One(u32),
    Nobody,
}

impl Meant {
    ghost use Rattle.std.specs.Prelude.{◌≡◌, ℕ};
    ghost use Rattle.law_lawful.specs.kr_model.ProcessRows.{is_meant};
    ghost use Rattle.kr_ops.specs.Children.{means};

    /// -1 and 0 mean any, a positive number that child, and another none.
    pub fn by(child: i32) -> Meant
        ensures { (pid : ℕ) → means result pid ≡ is_meant child pid }
    {
        match u32::try_from(child) {
            Ok(0) => Meant::Any,
            Ok(pid) => Meant::One(pid),
            Err(_) if child == -1 => Meant::Any,
            Err(_) => Meant::Nobody,
        }
    }

    fn means(self, pid: u32) -> bool
        ensures { result ≡ means self pid }
    {
        match self {
            Meant::Any => true,
            Meant::One(number) => pid == number,
            Meant::Nobody => false,
        }
    }
}

impl<T: Copy, const M: u8> State<T, M> {
    /// The living process of a number, `None` exactly where there is none.
    pub fn process(&self, pid: u32) -> Option<&Process<T, M>>
        requires { IsSound self.now }
        ensures { option_map process_meaning (option_copied result) ≡ process pid (meaning self.now) }
    {
        match self.index_of(pid) {
            Some(k) => Some(&self.living[k]),
            None => None,
        }
    }

    /// What is open under a descriptor of a process, `None` exactly where it isn't open.
    pub fn opened(&self, pid: u32, fd: u32) -> Option<&Opened<T>>
        requires { IsSound self.now }
        ensures { option_copied result ≡ opened pid fd (meaning self.now) }
    {
        match self.index_of(pid) {
            Some(k) => self.files.get(&self.living[k].descs, fd),
            None => None,
        }
    }

    /// Whether a successful execve(2) closes a descriptor of a process, `None` exactly where it isn't open.
    pub fn cloexec(&self, pid: u32, fd: u32) -> Option<bool>
        requires { IsSound self.now }
        ensures { result ≡ option_map (λ x. x.cloexec) (named pid fd (meaning self.now)) }
    {
        match self.index_of(pid) {
            Some(k) => self.living[k].descs.cloexec(fd),
            None => None,
        }
    }

    /// The lowest free descriptor of a process from a number on, `None` exactly where none is free or no such process lives.
    pub fn lowest_free(&self, pid: u32, from: u32) -> Option<u32>
        requires { IsSound self.now }
        ensures { result ≡ lowest_of pid from (meaning self.now) }
    {
        match self.index_of(pid) {
            Some(k) => self.living[k].descs.lowest_free(from),
            None => None,
        }
    }

    /// Whether a living process can make one more pipe.
    pub fn takes_pipe(&self, pid: u32) -> bool
        requires { IsSound self.now }
        ensures { result ≡ takes_pipe_of pid (meaning self.now) }
    {
        match self.index_of(pid) {
            Some(k) => self.files.takes_pipe(&self.living[k].descs),
            None => false,
        }
    }

    /// How many pages more all processes may have.
    pub fn free_pages(&self) -> u32
        requires { IsServed self.now }
        ensures { result + pages_in_all image_layout (meaning self.now).living ≡ all_pages }
    {
        self.room.free()
    }

    /// Whether a process has a living child that wait4(2) means.
    pub fn has_child(&self, parent: u32, meant: Meant) -> bool
        ensures { result ≡ list_any (is_child parent meant) (meaning self.now).living }
    {
        for k in 0..self.living.len() {
            let process = &self.living[k];
            if process.parent == parent && meant.means(process.pid) {
                return true;
            }
        }
        false
    }

    /// The ended child of the lowest number that wait4(2) means, `None` exactly where none ended.
    pub fn ended_child(&self, parent: u32, meant: Meant) -> Option<EndedProcess>
        ensures { result ≡ find (is_ended_child parent meant) self.now.ended.items }
    {
        for k in 0..self.ended.len() {
            let process = self.ended[k];
            if process.parent == parent && meant.means(process.pid) {
                return Some(process);
            }
        }
        None
    }
}
