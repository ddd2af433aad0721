//! A generated case: both machines run it, and their outcomes are compared.
ghost use Rattle.std.specs.Prelude.{◌≡◌, IfOk};
ghost use Rattle.std.specs.String.{string_bytes};
ghost use Rattle.pr_sources.specs.pr_io.Drawn.{received};
ghost use Rattle.pr_sources.specs.kr_text.Canonical.{canonical};
ghost use Rattle.kr_loose.specs.kr_core.Kernel.{HasNoTurn};
ghost use Rattle.pr_run.specs.Case.{agree, case_report_of, end_words, lines, status_by, summary, summary_lines, told_of, yes_or_no};
ghost use Rattle.pr_run.specs.Keeping.{kept_told, puts_told, report_told};
ghost use Rattle.pr_run.specs.Puts.{AnswersCase, PutsCase, end_told};
ghost use Rattle.pr_run.specs.Slots.{IsPlan, run_of};

use crate::keeping::{Kept, keep, output, same};
use crate::plan::Plan;
use crate::turns::{End, Stop, put_some};
use kr_loose::below::{Kernel, Places};
use pr_sources::Answer;
use pr_sources::below::{Bytes, NoMemory, PutFault, Sink, Tree, User, write};
use pt_tracer::Graphed;
use std::alloc::Global;

/// What is told of a case.
#[derive(Drop)]
pub struct CaseTold {
    pub summary: Bytes,
    /// The canonical listing of the tree that the watched run left.
    pub listing: Bytes,
    /// 0 where both runs came to the same outcome, and else 1.
    pub status: u8,
}

/// How a run ended, in the summary's words.
fn end_words(alloc: Global, end: End, status: u8) -> Result<String, NoMemory>
    ensures { IfOk result (λ words. string_bytes words ≡ end_words (end_told end) status) }
{
    let words = match end {
        End::Over => format!(in alloc; "ended {status}")?,
        End::Deadlock => String::from_str(alloc, "deadlock")?,
        End::Spent => String::from_str(alloc, "spent")?,
    };
    Ok(words)
}

/// How many lines a text has.
fn lines(text: &[u8]) -> usize
    ensures { result ≡ lines text.now }
{
    text.iter().filter(|byte| **byte == b'\n').count()
}

fn yes_or_no(same: bool) -> &'static str
    ensures { result.now ≡ yes_or_no same }
{
    if same { "yes" } else { "no" }
}

/// The status that tells whether both runs came to the same outcome.
fn status_by(same: bool) -> u8
    ensures { result ≡ status_by same }
{
    if same { 0 } else { 1 }
}

/// The lines of the summary, with their values.
fn summary_lines(
    alloc: Global,
    case: u32,
    end: &str,
    turns: usize,
    names: usize,
    out: u128,
    agree: &str,
) -> Result<Bytes, NoMemory>
    ensures { IfOk result (λ text. text ≡ summary_lines case end.now turns names out agree.now) }
{
    let text = format!(in alloc;
        "case {case}\nend {end}\nturns {turns}\nnames {names}\nout {out}\nagree {agree}\n"
    )?;
    Ok(Bytes::from(text.into_bytes()))
}

/// The summary of a case: its number, and how the watched run ended, how many turns it made, how many names its tree has, how many bytes it
/// put out, and whether the other run came to the same outcome.
fn summary(
    alloc: Global,
    case: u32,
    watched: &Kept,
    listing: &[u8],
    same: bool,
) -> Result<Bytes, NoMemory>
    ensures { IfOk result (λ text. text ≡ summary case (puts_told watched.now.puts.items) (end_told watched.now.end) watched.now.status listing.now same) }
{
    let end = end_words(alloc, watched.end, watched.status)?;
    let turns = watched.puts.len();
    let names = lines(listing).saturating_sub(1);
    let out = output(watched.puts.as_slice());
    summary_lines(
        alloc,
        case,
        end.as_str(),
        turns,
        names,
        out,
        yes_or_no(same),
    )
}

/// Compares the outcomes of two runs, and tells the case by the first, the watched one.
pub fn tell(
    alloc: Global,
    case: u32,
    user: User,
    watched: &Kept,
    watched_tree: &Tree,
    mounted: &Kept,
    mounted_tree: &Tree,
) -> Result<CaseTold, NoMemory>
    ensures { IfOk result (λ told. report_told told ≡ told_of case (kept_told watched.now watched_tree.now) (canonical watched_tree.now user) (agree (kept_told watched.now watched_tree.now) (kept_told mounted.now mounted_tree.now))) }
{
    let listing = write(alloc, watched_tree, user)?;
    let same = same(watched, watched_tree, mounted, mounted_tree);
    let summary = summary(alloc, case, watched, listing.as_slice(), same)?;
    let status = status_by(same);
    Ok(CaseTold {
        summary,
        listing,
        status,
    })
}

/// Runs both machines on a case, the watched one first, and tells it.
fn run_case<P: Places, S: Graphed, Q: Places, T: Graphed, const M: u8, const N: u8>(
    alloc: Global,
    case: u32,
    watched: &mut Kernel<P, S, M>,
    mounted: &mut Kernel<Q, T, N>,
    plan: &Plan,
) -> Result<CaseTold, NoMemory>
    requires watched { HasNoTurn watched.old }
    requires mounted { HasNoTurn mounted.old }
    requires plan { IsPlan plan.now }
    ensures { IfOk result (λ told. report_told told ≡ case_report_of case plan.now.user (run_of S.part S.does P.mounts P.number plan.now watched.old) (run_of T.part T.does Q.mounts Q.number plan.now mounted.old)) }
{
    let kept = keep(alloc, watched, plan)?;
    let other = keep(alloc, mounted, plan)?;
    tell(
        alloc,
        case,
        plan.user,
        &kept,
        watched.tree(),
        &other,
        mounted.tree(),
    )
}

/// Puts the summary, and then the listing.
fn put_case<O: Sink, L: Sink>(told: &CaseTold, out: &mut O, left: &mut L) -> Result<Answer, Stop>
    ensures { PutsCase (report_told told.now) (received O.Sink out.old out.new) (received L.Sink left.old left.new) result }
{
    match put_some(out, told.summary.as_slice()) {
        Ok(()) => {}
        Err(PutFault::Failed) => return Err(Stop::Out),
        Err(PutFault::NoMemory) => return Err(Stop::NoMemory),
    }
    match put_some(left, told.listing.as_slice()) {
        Ok(()) => {}
        Err(PutFault::Failed) => return Err(Stop::Left),
        Err(PutFault::NoMemory) => return Err(Stop::NoMemory),
    }
    Ok(Answer::Ended {
        status: told.status,
    })
}

/// Runs both machines on a case whose kernels have begun, and puts its report: the summary of the watched run, and the canonical listing of
/// the tree that this run left. It ends early only where a sink fails or memory runs out, and puts nothing before both runs are made.
pub fn case_report<
    P: Places,
    S: Graphed,
    Q: Places,
    T: Graphed,
    O: Sink,
    L: Sink,
    const M: u8,
    const N: u8,
>(
    alloc: Global,
    case: u32,
    watched: &mut Kernel<P, S, M>,
    mounted: &mut Kernel<Q, T, N>,
    plan: &Plan,
    out: &mut O,
    left: &mut L,
) -> Answer
    requires watched { HasNoTurn watched.old }
    requires mounted { HasNoTurn mounted.old }
    requires plan { IsPlan plan.now }
    ensures { AnswersCase (case_report_of case plan.now.user (run_of S.part S.does P.mounts P.number plan.now watched.old) (run_of T.part T.does Q.mounts Q.number plan.now mounted.old))
        (received O.Sink out.old out.new) (received L.Sink left.old left.new) result }
{
    let Ok(told) = run_case(alloc, case, watched, mounted, plan) else {
        return Answer::NoMemory;
    };
    match put_case(&told, out, left) {
        Ok(answer) => answer,
        Err(stop) => stop.answer(),
    }
}
