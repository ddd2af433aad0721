//! The opening: the words and the sources are read, bindings are settled, and the first process begins. Of a generated case both machines
//! begin, and no source is read.
ghost use Rattle.std.specs.Prelude.{◌≡◌, Bool, ◌⊎◌, ◌<◌, ◌^◌, None, Some, Err, IfErr, IfOk, length, map};
ghost use Rattle.std.specs.String.{string_bytes};
ghost use Rattle.pr_run.specs.pr_io.Drawn.{drawn, gave, received};
ghost use Rattle.pr_start.specs.pr_words.Sound.{AreSound};
ghost use Rattle.pr_run.specs.kr_mounts.Standing.{texts_of};
ghost use Rattle.pr_run.specs.kr_mounts.Stored.{table_of};
ghost use Rattle.pr_start.specs.kr_start.Ready.{IsOfListing, IsReady};
ghost use Rattle.pr_start.specs.pt_bind.Binding.{rows_of};
ghost use Rattle.pr_run.specs.pr_sources.Asking.{asked};
ghost use Rattle.pr_run.specs.pr_sources.Reading.{AreDrawn, AsksCase, EndsBeforeElf, EndsBeforeInput, HasCause, IsListed, IsOfWords, IsReadAs, IsRefusal, ReadHasCause, ReadsSources, WantsElf, read_asked};
ghost use Rattle.pr_run.specs.pr_sources.Within.{IsAskedWithin, and_then};
ghost use Rattle.pr_top.specs.Opening.{IsFresh, IsMarkedFor, IsOfOpening, IsOfStart, IsReadyToRun, Mounts, OpensFrom, ReadsAs, StartsAs, begins, gives_slots, ids_for, opening, Traced, slots_for, started_as, started_on, started_told, stepwise, stepwise_start, watch_for};
ghost use Rattle.pr_start.specs.Beginning.{HasTexts, beginning};
ghost use Rattle.pr_start.specs.TracedBeginning.{start_meets, traced_machine};
ghost use Rattle.pr_start.specs.kr_core.Kernel.{HasNoTurn};

use crate::generated::begin_case;
use pr_gen::below::{Bytes, User};
use pr_run::below::{
    Answer, Asked, BindFault, Loose, Mounted, Plain, Sink, Slots, Source, ask, read,
};
use pr_run::{Plan, case_report, report, report_loosely};
use pr_start::below::{Launch, Options, Rule, Stage, StartFault, settled};
use pr_start::{Faker, Kernel, Tracer, Watch, start, start_traced, start_unmarked};
use std::alloc::Global;

/// A machine: a kernel over mounts, whose shelves are marked so that it tells whether a run is calm; or one that keeps no marks, where that
/// isn't asked, with the rule that its start broke; or a plain kernel with its tracer, turn by turn or step by step; or two, for a generated case.
pub(crate) enum Kind {
    Mounts(Kernel<Mounted, Watch, 1>),
    Unmarked {
        kernel: Kernel<Mounted, Watch, 0>,
        broken: Option<Rule>,
    },
    Traced(Kernel<Plain, Tracer, 0>),
    Loosely(Loose<Plain, Tracer, 0>),
    Both {
        case: u32,
        watched: Kernel<Plain, Tracer, 0>,
        mounted: Kernel<Mounted, Watch, 1>,
    },
}

/// Written, and each kernel let go in a function of its own, so that who lets a machine go makes one call, and need not know what it holds.
impl Drop for Kind {
    fn drop(self) {
        match self {
            Kind::Mounts(kernel) => end_marked(kernel),
            Kind::Unmarked {
                kernel,
                broken: _broken,
            } => end_unmarked(kernel),
            Kind::Traced(kernel) => end_watched(kernel),
            Kind::Loosely(loose) => end_loose(loose),
            Kind::Both {
                case: _case,
                watched,
                mounted,
            } => {
                end_watched(watched);
                end_marked(mounted);
            }
        }
    }
}

/// Lets a kernel with marks go.
fn end_marked(_kernel: Kernel<Mounted, Watch, 1>) {}

/// Lets one without marks go.
fn end_unmarked(_kernel: Kernel<Mounted, Watch, 0>) {}

/// Lets a plain kernel and its tracer go.
pub(crate) fn end_watched(_kernel: Kernel<Plain, Tracer, 0>) {}

/// Lets a loose run go.
fn end_loose(_loose: Loose<Plain, Tracer, 0>) {}

/// A run that has begun: its machine, and what it is made by.
#[derive(Drop)]
pub struct Opened {
    pub(crate) kind: Kind,
    pub(crate) plan: Plan,
}

impl Opened {
    ghost use Rattle.pr_top.specs.Opening.{AnswersBegun, IsReadyToRun, begun_told};

    /// Runs it, and puts its report.
    pub fn report<O: Sink, R: Sink, L: Sink>(
        &mut self,
        alloc: Global,
        out: &mut O,
        err: &mut R,
        left: &mut L,
    ) -> Answer
        requires { IsReadyToRun self.old }
        ensures { AnswersBegun (begun_told self.old) (received O.Sink out.old out.new) (received R.Sink err.old err.new) (received L.Sink left.old left.new) result }
    {
        match &mut self.kind {
            Kind::Mounts(kernel) => report(alloc, kernel, &self.plan, out, err, left),
            Kind::Unmarked { kernel, .. } => report(alloc, kernel, &self.plan, out, err, left),
            Kind::Traced(kernel) => report(alloc, kernel, &self.plan, out, err, left),
            Kind::Loosely(loose) => report_loosely(alloc, loose, &self.plan, out, err, left),
            Kind::Both {
                case,
                watched,
                mounted,
            } => case_report(alloc, *case, watched, mounted, &self.plan, out, left),
        }
    }
}

/// Who a program is told that it runs as: the host's user, or whom an identity option names.
fn ids_for(user: User, ids: Option<(u32, u32)>) -> (u32, u32)
    ensures { result ≡ ids_for user ids }
{
    match ids {
        Some(ids) => ids,
        None => (user.uid, user.gid),
    }
}

/// Who watches its calls.
fn watch_for(alloc: Global, user: User, ids: Option<(u32, u32)>) -> Watch
    ensures { result ≡ watch_for user ids }
{
    match ids {
        Some(ids) => Watch::Faked(Faker::new(alloc, user, ids)),
        None => Watch::Nobody,
    }
}

/// Starts the command over mounts, on a kernel that keeps marks only where it is asked whether the run is calm.
fn start_mounted(
    alloc: Global,
    calm: bool,
    stage: Stage,
    launch: Launch,
    input: Bytes,
    watch: Watch,
) -> Result<Kind, StartFault>
    requires ready { IsReady stage.tree stage.user (table_of stage.places) }
    requires launch { HasTexts launch }
    ensures begins { StartsAs (started_as (Mounts (table_of stage.places)) (beginning (table_of stage.places) stage.tree stage.user watch launch input)) result }
    ensures fresh { IfOk result IsFresh }
    ensures marked { IfOk result (IsMarkedFor calm) }
{
    if calm {
        match start(alloc, stage, launch, input, watch) {
            Ok(kernel) => Ok(Kind::Mounts(kernel)),
            Err(fault) => Err(fault),
        }
    } else {
        match start_unmarked(alloc, stage, launch, input, watch) {
            Ok((kernel, broken)) => Ok(Kind::Unmarked { kernel, broken }),
            Err(fault) => Err(fault),
        }
    }
}

/// Whether slots of single steps are given.
fn gives_slots(loose: &Slots) -> bool
    ensures { result ≡ gives_slots loose.now }
{
    !loose.is_empty()
}

/// The slots of a run: those of single steps where some are given, else those of turns.
fn slots_for(schedule: Slots, loose: Slots) -> Slots
    ensures { result ≡ slots_for schedule loose }
{
    if gives_slots(&loose) { loose } else { schedule }
}

/// A plain kernel with its tracer, turn by turn or step by step.
fn watched_kind(alloc: Global, steps: bool, kernel: Kernel<Plain, Tracer, 0>) -> Kind
    requires { HasNoTurn kernel }
    ensures kind { started_told result ≡ stepwise steps kernel.met (Traced (traced_machine kernel)) }
    ensures fresh { IsFresh result }
    ensures marked { (calm : Bool) → IsMarkedFor calm result }
{
    if steps {
        Kind::Loosely(Loose::new(alloc, kernel))
    } else {
        Kind::Traced(kernel)
    }
}

/// Starts the command over mounts, or on a plain kernel with a tracer, which goes by single steps where that is asked for.
fn start_on(
    alloc: Global,
    native: bool,
    steps: bool,
    calm: bool,
    stage: Stage,
    launch: Launch,
    input: Bytes,
    ids: Option<(u32, u32)>,
) -> Result<Kind, StartFault>
    requires ready { IsReady stage.tree stage.user (table_of stage.places) }
    requires texts { rows_of stage.texts ≡ texts_of (table_of stage.places) }
    requires launch { HasTexts launch }
    ensures begins { StartsAs (stepwise_start steps (start_meets (texts_of (table_of stage.places)) stage.tree stage.user launch) (started_on native (table_of stage.places) stage.tree stage.user ids launch input)) result }
    ensures fresh { IfOk result IsFresh }
    ensures marked { IfOk result (IsMarkedFor calm) }
{
    if native {
        let watch = watch_for(alloc, stage.user, ids);
        start_mounted(alloc, calm, stage, launch, input, watch)
    } else {
        match start_traced(alloc, stage, launch, input, ids) {
            Ok(kernel) => Ok(watched_kind(alloc, steps, kernel)),
            Err(fault) => Err(fault),
        }
    }
}

/// Settles the bindings that are asked for, and starts the command over them.
fn begin(alloc: Global, asked: Asked) -> Result<Opened, Answer>
    requires sound { AreSound asked.options }
    requires listing { IsOfListing asked.tree asked.user }
    ensures begun { OpensFrom (begins asked) result }
    ensures kinds { IfErr result IsOfStart }
    ensures ready { IfOk result (λ opened. IsReadyToRun opened) }
{
    let Asked {
        options,
        tree,
        user,
        input,
    } = asked;
    let steps = gives_slots(&options.loose);
    let plan = Plan {
        turns: options.turns,
        schedule: slots_for(options.schedule, options.loose),
        calm: options.calm,
        user,
    };
    let launch = Launch {
        command: options.command,
        env: options.env,
        cwd: options.cwd,
        ids: ids_for(user, options.ids),
    };
    let stage = match settled(
        alloc,
        tree,
        user,
        options.root.as_slice(),
        options.binds.as_slice(),
    ) {
        Ok(stage) => stage,
        Err(BindFault::Bad { index, why }) => return Err(Answer::BadBind { index, why }),
        Err(BindFault::NoMemory) => return Err(Answer::NoMemory),
    };
    let kind = start_on(
        alloc,
        options.native,
        steps,
        options.calm,
        stage,
        launch,
        input,
        options.ids,
    );
    match kind {
        Ok(kind) => Ok(Opened { kind, plan }),
        Err(StartFault::Err(errno)) => Err(Answer::NoStart { errno }),
        Err(StartFault::NoMemory) => Err(Answer::NoMemory),
    }
}

/// Reads the sources, in the order of `pr_sources::read`, then settles the bindings, and starts the command.
fn open_sources<T: Source, E: Source, I: Source>(
    alloc: Global,
    options: Options,
    tree: &mut T,
    elf: &mut E,
    input: &mut I,
) -> Result<Opened, Answer>
    requires { AreSound options }
    ensures opens { OpensFrom (and_then (read_asked options (gave (drawn T.Source tree.old tree.new)) (gave (drawn E.Source elf.old elf.new)) (gave (drawn I.Source input.old input.new))) (λ asked. begins asked)) result }
    ensures read { ReadsAs (read_asked options (gave (drawn T.Source tree.old tree.new)) (gave (drawn E.Source elf.old elf.new)) (gave (drawn I.Source input.old input.new))) result }
    ensures ready { IfOk result (λ opened. IsReadyToRun opened) }
    ensures kinds { IfErr result IsOfOpening }
    ensures words { IfErr result (λ answer. IsOfWords answer → ⊥) }
    ensures causes { IfErr result (ReadHasCause (record { tree = drawn T.Source tree.old tree.new; elf = drawn E.Source elf.old elf.new; input = drawn I.Source input.old input.new })) }
    ensures before_elf { IfErr result (λ answer. EndsBeforeElf answer → elf.new ≡ elf.old) }
    ensures unwanted { (elf.new ≡ elf.old) ⊎ WantsElf (drawn T.Source tree.old tree.new) }
    ensures before_input { IfErr result (λ answer. EndsBeforeInput answer → input.new ≡ input.old) }
    ensures unlisted { (input.new ≡ input.old) ⊎ IsListed (drawn T.Source tree.old tree.new) (drawn E.Source elf.old elf.new) }
    ensures gives { AreDrawn (record { tree = drawn T.Source tree.old tree.new; elf = drawn E.Source elf.old elf.new; input = drawn I.Source input.old input.new }) }
    ensures ends { IsReadAs (record { tree = drawn T.Source tree.old tree.new; elf = drawn E.Source elf.old elf.new; input = drawn I.Source input.old input.new }) result }
    ensures tree_takes { IsAskedWithin (2 ^ 26) (T.takes tree.old) (T.takes tree.new) }
    ensures elf_takes { IsAskedWithin (2 ^ 24) (E.takes elf.old) (E.takes elf.new) }
    ensures input_takes { IsAskedWithin (2 ^ 24) (I.takes input.old) (I.takes input.new) }
{
    let asked = read(alloc, options, tree, elf, input)?;
    begin(alloc, asked)
}

/// Reads the words, and then what they ask for: the sources of a run, or none where they ask for a generated case.
pub fn open<T: Source, E: Source, I: Source>(
    alloc: Global,
    words: &[String],
    tree: &mut T,
    elf: &mut E,
    input: &mut I,
) -> Result<Opened, Answer>
    requires { length words.now < 2 ^ 32 }
    ensures opens { OpensFrom (opening (map string_bytes words.now) (gave (drawn T.Source tree.old tree.new)) (gave (drawn E.Source elf.old elf.new)) (gave (drawn I.Source input.old input.new))) result }
    ensures read { IfOk (asked (map string_bytes words.now)) (λ o. o.case ≡ None →
        ReadsAs (read_asked o (gave (drawn T.Source tree.old tree.new)) (gave (drawn E.Source elf.old elf.new)) (gave (drawn I.Source input.old input.new))) result) }
    ensures ready { IfOk result (λ opened. IsReadyToRun opened) }
    ensures kinds { IfErr result IsOfOpening }
    ensures words { IfErr result (λ answer. IsOfWords answer → asked (map string_bytes words.now) ≡ Err answer) }
    ensures causes { IfErr result (HasCause (asked (map string_bytes words.now)) (record { tree = drawn T.Source tree.old tree.new; elf = drawn E.Source elf.old elf.new; input = drawn I.Source input.old input.new })) }
    ensures before_sources { IsRefusal (asked (map string_bytes words.now)) → (tree.new ≡ tree.old) × (elf.new ≡ elf.old) × (input.new ≡ input.old) }
    ensures case_sources { AsksCase (asked (map string_bytes words.now)) → (tree.new ≡ tree.old) × (elf.new ≡ elf.old) × (input.new ≡ input.old) }
    ensures before_elf { IfErr result (λ answer. EndsBeforeElf answer → elf.new ≡ elf.old) }
    ensures unwanted { (elf.new ≡ elf.old) ⊎ WantsElf (drawn T.Source tree.old tree.new) }
    ensures before_input { IfErr result (λ answer. EndsBeforeInput answer → input.new ≡ input.old) }
    ensures unlisted { (input.new ≡ input.old) ⊎ IsListed (drawn T.Source tree.old tree.new) (drawn E.Source elf.old elf.new) }
    ensures gives { AreDrawn (record { tree = drawn T.Source tree.old tree.new; elf = drawn E.Source elf.old elf.new; input = drawn I.Source input.old input.new }) }
    ensures ends { ReadsSources (asked (map string_bytes words.now)) → IsReadAs (record { tree = drawn T.Source tree.old tree.new; elf = drawn E.Source elf.old elf.new; input = drawn I.Source input.old input.new }) result }
    ensures tree_takes { IsAskedWithin (2 ^ 26) (T.takes tree.old) (T.takes tree.new) }
    ensures elf_takes { IsAskedWithin (2 ^ 24) (E.takes elf.old) (E.takes elf.new) }
    ensures input_takes { IsAskedWithin (2 ^ 24) (I.takes input.old) (I.takes input.new) }
{
    let options = ask(alloc, words)?;
    match options.case {
        Some(number) => begin_case(alloc, number, options),
        None => open_sources(alloc, options, tree, elf, input),
    }
}
