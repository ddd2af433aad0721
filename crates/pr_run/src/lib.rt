//! The run of a kernel, turn after turn or step after step, and the report that is put of it; and of two kernels, whose outcomes are compared.
//!
//! What is proved, with the clause or the law that carries it:
//!
//! The turns of a kernel, and what is put of them. One loop goes over them, and knows of what goes on no more than that it does so by slots
//! (`Goes`). It holds over any view, and with each watcher whose stops are functions of a part of what it keeps (`Graphed`): of that part the run
//! speaks, and what is remembered beside it shows nowhere.
//!
//! `report` answers the report of the definition's run, and puts it (`AnswersReport`; `run`, `report_of`): the bytes of each turn, the line on
//! calm where it is asked for, the canonical listing of the tree that is left. Where a sink fails, its count rose and it was handed bytes, and
//! what the sinks got is told turn by turn (`StopsInOut`, `StopsInErr`, `StopsInCalm`); want of memory comes between turns, or between the output
//! and the error bytes of one (`StopsBetween`), or behind them all.
//!
//! `report_loosely` does the same for a loose run, by single steps (`AnswersLoosely`; `loose_ran`, `loose_report`), with the line on quiet in the place
//! of the line on calm: that line is exactly that of the run's steps (`TellsQuiet`), wherever it was due.
//!
//! `case_report` runs two kernels under one plan, keeps the bytes of each turn, and answers and puts the report of a case (`case_report_of`): the
//! summary of the first run, the listing that it left, and whether both outcomes are equal. What tells outcomes apart is a test by their codes,
//! which holds exactly where they are equal (`outcomes_are_told_apart`).
//!
//! Only tested, or not shown: `rows`; in `top_tests` outcomes that differ in one byte, in the turn of a byte, in the end, in the status, in the
//! tree.
#![tactic(auto)]

pub mod below;
mod case;
mod going;
mod keeping;
pub mod laws;
mod plan;
mod reporting;
mod stepping;
mod turns;

pub use case::{CaseTold, case_report, tell};
pub use keeping::{Kept, Written, keep};
pub use plan::Plan;
pub use reporting::report;
pub use stepping::report_loosely;
pub use turns::{End, Stop};
