//! The runs of rows.

use crate::called::{Machine, Runner, Told, call};
use crate::defaults::Row;
use crate::differing::{between, differences};
use crate::failed::Failed;
use crate::parts::blocks;
use crate::scenes::Scene;
use crate::wants::{Calm, Machines, Wanted};
use guests::below::NoMemory;
use std::alloc::Global;
use std::fmt::{self, Display, Formatter, Write};

/// How many rows agree and differ, and how many runs were made.
#[derive(Clone, Copy)]
pub struct Tally {
    pub agree: u32,
    pub differ: u32,
    pub runs: u32,
}

impl Display for Tally {
    fn fmt<W: Write>(&self, f: &mut Formatter<W>) -> fmt::Result {
        let agree = self.agree;
        let runs = self.runs;
        write!(f, "{agree} rows agree in {runs} runs")?;
        if self.differ != 0 {
            let differ = self.differ;
            write!(f, ", and {differ} rows differ")?;
        }
        Ok(())
    }
}

/// What was found in the runs of a row.
#[derive(Drop)]
struct Found {
    runs: u32,
    differs: Vec<String>,
}

impl Found {
    /// Adds what differs in a run.
    fn note(&mut self, alloc: Global, run: &str, differs: &[String]) -> Result<(), NoMemory> {
        for difference in differs {
            self.differs
                .push(format!(in alloc; "{run}: {difference}")?)?;
        }
        Ok(())
    }
}

/// The run over mounts that a row wants.
fn over_mounts(wanted: &Wanted<'_, '_>) -> Option<Machine> {
    match wanted.machines {
        Machines::Traced => None,
        Machines::Both | Machines::Native => match wanted.calm {
            Some(_calm) => Some(Machine::Calm),
            None => Some(Machine::Native),
        },
    }
}

/// Whether a row is run with a tracer.
fn with_tracer(wanted: &Wanted<'_, '_>) -> bool {
    match wanted.machines {
        Machines::Traced => true,
        Machines::Native => false,
        Machines::Both => match wanted.calm {
            Some(Calm::Broken(_rule)) => wanted.traced.is_some(),
            _ => true,
        },
    }
}

/// Makes a run on a machine, and notes what differs.
fn run_on<C: Runner>(
    alloc: Global,
    runner: &C,
    found: &mut Found,
    machine: Machine,
    options: &[String],
    scene: &Scene,
    wanted: &Wanted<'_, '_>,
    elf: &[u8],
) -> Result<Told, NoMemory> {
    let told = call(alloc, runner, machine, options, scene, elf)?;
    found.runs = found.runs.saturating_add(1);
    let differs = differences(alloc, wanted, machine, elf, &told)?;
    let words = machine.words();
    let length = elf.len();
    let run = format!(in alloc; "`{words}` {options:?}, {length} bytes")?;
    found.note(alloc, run.as_str(), differs.as_slice())?;
    Ok(told)
}

/// Makes a run on each machine that a row wants.
fn run_both<C: Runner>(
    alloc: Global,
    runner: &C,
    found: &mut Found,
    options: &[String],
    scene: &Scene,
    wanted: &Wanted<'_, '_>,
    elf: &[u8],
) -> Result<(), NoMemory> {
    let native = match over_mounts(wanted) {
        Some(machine) => Some(run_on(alloc, runner, found, machine, options, scene, wanted, elf)?),
        None => None,
    };
    if !with_tracer(wanted) {
        return Ok(());
    }
    let traced = run_on(
        alloc,
        runner,
        found,
        Machine::Traced,
        options,
        scene,
        wanted,
        elf,
    )?;
    if let Some(native) = native {
        if wanted.left.is_none() && wanted.traced.is_none() {
            let differs = between(alloc, &native, &traced)?;
            found.note(alloc, "both machines", differs.as_slice())?;
        }
    }
    Ok(())
}

/// Makes all runs of a row.
fn run_row<C: Runner>(alloc: Global, runner: &C, row: &Row<'_, '_>) -> Result<Found, Failed> {
    let scene = row.scene(alloc)?;
    let wanted = row.wanted(alloc)?;
    let mut found = Found {
        runs: 0,
        differs: Vec::new(alloc),
    };
    let cut = scene.cut;
    let elf = scene.elf.as_slice();
    for options in &scene.options {
        let options = options.as_slice();
        match cut {
            Some(cut) => {
                for length in cut.from..cut.to.saturating_add(1) {
                    let elf = elf.get(..length as usize).unwrap_or(elf);
                    run_both(alloc, runner, &mut found, options, &scene, &wanted, elf)?;
                }
            }
            None => run_both(alloc, runner, &mut found, options, &scene, &wanted, elf)?,
        }
    }
    Ok(found)
}

/// Tells what differs in a row.
fn tell<R: Print>(rt: &R, row: &Row<'_, '_>, found: &Found) -> Result<(), Failed> {
    let name = row.name().text;
    let line = row.name().number;
    for difference in &found.differs {
        println!(rt; "row {name} (line {line}), {difference}").map_err(|_| Failed::Output)?;
    }
    Ok(())
}

/// Runs all rows of a text, and tells what differs.
pub fn run_rows<R: Print + AllocGlobal, C: Runner>(
    rt: &R,
    runner: &C,
    text: &str,
) -> Result<Tally, Failed> {
    let alloc = rt.alloc();
    let blocks = blocks(alloc, text)?;
    let mut tally = Tally {
        agree: 0,
        differ: 0,
        runs: 0,
    };
    for place in 0..blocks.len() {
        let Some(row) = Row::at(blocks.as_slice(), place) else {
            continue;
        };
        let found = run_row(alloc, runner, &row)?;
        tell(rt, &row, &found)?;
        tally.runs = tally.runs.saturating_add(found.runs);
        if found.differs.is_empty() {
            tally.agree = tally.agree.saturating_add(1);
        } else {
            tally.differ = tally.differ.saturating_add(1);
        }
    }
    Ok(tally)
}
