//! Rows of whole runs, read from the standard input: each is run through the public call, and what differs from what it wants is told, and last
//! how many rows agree. The crate `row_text` says how rows are written.
#![tactic(auto)]

mod proot_runs;

use crate::proot_runs::Proot;
use row_text::{Failed, Tally, run_rows};
use std::io;
use std::process::ExitCode;

/// Runs the rows of the standard input.
fn run(rt: &HostRuntime) -> Result<Tally, Failed> {
    match io::read_to_string(rt.alloc(), rt.stdin()) {
        Ok(text) => run_rows(rt, &Proot, text.as_str()),
        Err(_error) => Err(Failed::Input),
    }
}

fn main(rt: HostRuntime) -> ExitCode {
    match run(&rt) {
        Ok(tally) => {
            let _ = println!(rt; "{tally}");
            ExitCode::from(if tally.differ == 0 { 0 } else { 1 })
        }
        Err(failed) => {
            let _ = eprintln!(rt; "rows: {failed}");
            ExitCode::from(2)
        }
    }
}
