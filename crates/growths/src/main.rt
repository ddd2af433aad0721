//! Runs in which one growth (an allocation) may be refused from outside. The standard input names them, one on each line: a scene, `home` or
//! `data`, and a machine, `traced` or `native`. Each is made through the public call, and a line tells in a word what came of it:
//!
//! - `SAME`: the answer and all that was put are those with ample memory;
//! - `MEMORY`: the answer is that memory was wanting, the output and the errors have the bytes of whole turns, the line on calm only behind all of
//!   them, and no listing is left;
//! - `INPUT`: memory was wanting before the run, for its own input;
//! - `WRONG`: something else came.
//!
//! With ample memory each is `SAME`, so that a body that gives up without need is seen. `bench/growths` refuses growth by growth. What must come is
//! worked out by hand, and behind the run nothing grows any more.
#![tactic(auto)]

mod judged;
mod made;
mod scenes;

use crate::judged::Word;
use crate::made::{Machine, make};
use crate::scenes::Scene;
use std::io::{self, ErrorKind, Write};
use std::process::ExitCode;

/// The status where no run can be made, or nothing be told.
const UNTOLD: u8 = 2;

/// Makes the run of that name.
fn run_named(rt: &HostRuntime, name: &str) -> Option<Word> {
    let (scene, machine) = name.split_once(' ')?;
    let scene = Scene::named(scene)?;
    let machine = Machine::named(machine)?;
    match make(rt.alloc(), machine, scene) {
        Ok(word) => Some(word),
        Err(_no_memory) => Some(Word::Input),
    }
}

/// Makes the runs of these names, and tells a word of each. The status is 0 where none is wrong.
fn tell_runs(rt: &HostRuntime, names: &str) -> u8 {
    let mut status = 0;
    for name in names.lines() {
        let Some(word) = run_named(rt, name) else {
            return UNTOLD;
        };
        if matches!(word, Word::Wrong) {
            status = 1;
        }
        if rt.stdout().write_all(word.line()).is_err() {
            return UNTOLD;
        }
    }
    status
}

fn main(rt: HostRuntime) -> ExitCode {
    let names = match io::read_to_string(rt.alloc(), rt.stdin()) {
        Ok(names) => names,
        Err(error) if error.kind() == ErrorKind::OutOfMemory => {
            let _ = rt.stdout().write_all(Word::Input.line());
            return ExitCode::from(0);
        }
        Err(_error) => return ExitCode::from(UNTOLD),
    };
    ExitCode::from(tell_runs(&rt, names.as_str()))
}
