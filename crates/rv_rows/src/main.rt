//! Reads rows from the standard input, and tells those that differ from what the table, the assembler and
//! the processor do, and last how many agree. `row` says how rows are written.
#![tactic(auto)]

mod fault;
mod instruction;
mod memory;
mod number;
mod outcome;
mod played;
mod program;
mod row;
mod state;

use row::judged;
use std::io;

fn main(rt: HostRuntime) -> io::Result<()> {
    let mut number = 0u64;
    let mut rows = 0u64;
    let mut agreed = 0u64;
    for line in rt.lines(rt.alloc()) {
        let line = line?;
        let row = line.as_str().trim();
        number = number.saturating_add(1);
        if row.is_empty() || row.starts_with('#') {
            continue;
        }
        rows = rows.saturating_add(1);
        match judged(rt.alloc(), row) {
            Ok(told) => {
                if told.is_empty() {
                    agreed = agreed.saturating_add(1);
                } else {
                    println!(rt; "line {number}: {row}: {told}")?;
                }
            }
            Err(fault) => println!(rt; "line {number}: bad row: {fault}")?,
        }
    }
    println!(rt; "{agreed} of {rows} rows agree")
}
