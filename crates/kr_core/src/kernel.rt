//! The kernel.
ghost use Rattle.std.specs.Prelude.{◌≡◌, ◌≤◌, ◌<◌, ◌^◌, ◌↔◌, ◌||◌, [], ℕ, suc, true, false, length, slice_get, IfOk, IsSome, OnOk};
ghost use Rattle.std.specs.Option.{option_map, option_map_or};
ghost use Rattle.kr_first.specs.law_allowed.Told.{SourcesAreNamed};
ghost use Rattle.kr_turns.specs.kr_calm.Calm.{kept, rule_number};
ghost use Rattle.kr_core.specs.Between.{between_of, is_exec_at, paused_at};
ghost use Rattle.kr_core.specs.Counting.{IsCounted, raised};
ghost use Rattle.kr_core.specs.Kernel.{Clears, IsPicked, Starts, StartsJudged, Turns, first_rule, machine, phase_of};
ghost use Rattle.kr_core.specs.Moving.{Entry, Exit, Instructions, Plain, calls_execve};
ghost use Rattle.kr_core.specs.Stepping.{BornRun, HasCalled, HasMadeCall, HasMetAt, HasMetIn, HasMoved, HasRunFor, HasTurned, TurnMeets, IsLeftAt, RunsAgain, is_done};
ghost use Rattle.kr_first.specs.Started.{HasSizedProcesses, LeadsToDirectory};
ghost use Rattle.kr_first.specs.Starting.{start_of, start_reach};
ghost use Rattle.kr_first.specs.law_allowed.Texts.{IsText};
ghost use Rattle.kr_first.specs.kr_start.Beginning.{CanLast};
ghost use Rattle.kr_first.specs.kr_start.Start.{HasNoHolds};
ghost use Rattle.kr_turns.specs.Breaking.{nothing_reached};
ghost use Rattle.kr_turns.specs.PlainCall.{plain_call, plain_reach};
ghost use Rattle.kr_turns.specs.Turn.{calling};
ghost use Rattle.kr_turns.specs.declared.plain.CallEnd.TheVariants.{Waits};
ghost use Rattle.kr_turns.specs.Steps.{ready_processes};
ghost use Rattle.kr_turns.specs.kr_model.State.{process};
ghost use Rattle.kr_turns.specs.kr_ops.Meaning.{meaning};
ghost use Rattle.kr_turns.specs.kr_ops.Sound.{IsSoundFor};
ghost use Rattle.kr_turns.specs.kr_seen.Numbered.{state_numbered};
ghost use Rattle.kr_turns.specs.kr_stops.Watching.{watching};
ghost use Rattle.kr_turns.specs.kr_view.View.{StandsIn};

use crate::paused::{
    Begun, Between, Paused, Phase, begun_at, between_of, handed_at, let_run, pause, pause_after,
    pause_by, phase_at,
};
use kr_first::below::{Tree, User};
use kr_first::{First, StartFault, start};
use kr_turns::below::{
    Bytes, NoMemory, Places, Reach, Rule, State, lawful_states_are_sound, reaches_too_far,
    trees_are_kept,
};
use kr_turns::{
    After, EntryMade, Halt, Stops, Stretch, enter_call, leave_call, make_call, picked, ready,
    register, run_for,
};
use std::alloc::Global;
use std::marker::Model;

/// The register of a call's number.
const A7: u8 = 17;

/// The number of execve(2).
const EXECVE: u64 = 221;

/// What a call for a turn did.
#[derive(Clone, Copy)]
pub enum Turned {
    /// A process ran.
    Ran,
    /// A process lives and none is ready: nothing changed.
    Deadlock,
    /// No process lives: nothing changed.
    Over,
}

/// A kernel over a view, whose calls are watched, and its processes. Where `MARKED` isn't 0 their memories keep marks, and the calm rules
/// are judged.
#[derive(Drop)]
pub struct Kernel<P: Places, S: Stops, const MARKED: u8> {
    alloc: Global,
    places: P,
    stops: S,
    state: State<P::Mount, MARKED>,
    status: u8,
    broken: Option<Rule>,
    turns: u32,
    /// How many calls were carried out, those of turns among them.
    calls: u32,
    /// How many of them altered the shape of the tree.
    shape_changes: u64,
    /// How many altered the bytes of a file.
    byte_changes: u64,
    /// Whether a walk looked up a name in the process directory, one of the start or of a peek among them.
    met: bool,
    /// Those of its processes that don't run.
    paused: Vec<Paused>,
    /// Nothing is known of a state in which memory was wanting.
    whole: bool,
}

impl<P: Places, S: Stops, const MARKED: u8> Model for Kernel<P, S, MARKED> {
    ghost use Rattle.std.specs.Coded.{codes};
    ghost use Rattle.kr_turns.specs.rv_mem.Memory.{memory_code};
    ghost use Rattle.kr_first.specs.kr_tree.Tree.{tree_code};
    ghost use Rattle.kr_first.specs.kr_files.Descriptors.{descriptors_code};
    ghost use Rattle.kr_first.specs.kr_files.Files.{kept_code};
    ghost use Rattle.kr_core.specs.Kernel as kernel;

    ghost Value = { kernel.Kernel P S P.Mount MARKED };

    ghost coded = { Prim.hlevel (codes, tree_code, memory_code, descriptors_code, kept_code {M = P.Mount} (Prim.hlevel (codes, P.Mount.code)), P.Mount.code, P.code, S.code) };

    ghost view = { λ k. record { places = k.places; stops = k.stops; state = k.state; status = k.status; broken = k.broken; turns = k.turns; calls = k.calls; shape_changes = k.shape_changes; byte_changes = k.byte_changes; met = k.met; paused = k.paused.items; whole = k.whole } };

    ghost invariant = { λ k. kernel.Stands P.number P.mounts S.agrees S.is_free (record { places = k.places; stops = k.stops; state = k.state; status = k.status; broken = k.broken; turns = k.turns; calls = k.calls; shape_changes = k.shape_changes; byte_changes = k.byte_changes; met = k.met; paused = k.paused.items; whole = k.whole }) };
}

impl<P: Places + Drop, S: Stops + Drop, const MARKED: u8> Kernel<P, S, MARKED> {
    /// A kernel over a tree that nothing holds and in which the view's mounts stand, with its first process, which is that of execve(2):
    /// so are the errors. Each source of a mount is held once. The working directory must be a directory, and what the watcher remembers must be
    /// so in the tree.
    pub fn start(
        alloc: Global,
        places: P,
        stops: S,
        tree: Tree,
        user: User,
        input: Bytes,
        first: First,
    ) -> Result<Kernel<P, S, MARKED>, StartFault>
        requires sized { HasSizedProcesses P.Mount.row MARKED.row }
        requires stands { StandsIn tree (P.mounts places) }
        requires few { length (P.mounts places) < 2 ^ 32 }
        requires free { HasNoHolds tree }
        requires lasts { CanLast tree user }
        requires named { SourcesAreNamed (P.mounts places) }
        requires text { IsText first.path }
        requires cwd { LeadsToDirectory (P.mounts places) tree user first.cwd }
        requires agrees { S.agrees stops tree user }
        ensures { Starts P.number places stops (start_reach (P.mounts places) tree user first) (start_of (P.mounts places) tree user input first) result }
    {
        match Kernel::<P, S, MARKED>::start_judged(alloc, places, stops, tree, user, input, first) {
            Ok((kernel, _rule)) => Ok(kernel),
            Err(fault) => Err(fault),
        }
    }

    /// A kernel at its start, as `start` gives it, and the calm rule that the walks of the start broke, which a kernel that keeps no marks forgets.
    pub fn start_judged(
        alloc: Global,
        places: P,
        stops: S,
        tree: Tree,
        user: User,
        input: Bytes,
        first: First,
    ) -> Result<(Kernel<P, S, MARKED>, Option<Rule>), StartFault>
        requires sized { HasSizedProcesses P.Mount.row MARKED.row }
        requires stands { StandsIn tree (P.mounts places) }
        requires few { length (P.mounts places) < 2 ^ 32 }
        requires free { HasNoHolds tree }
        requires lasts { CanLast tree user }
        requires named { SourcesAreNamed (P.mounts places) }
        requires text { IsText first.path }
        requires cwd { LeadsToDirectory (P.mounts places) tree user first.cwd }
        requires agrees { S.agrees stops tree user }
        ensures { StartsJudged P.number places stops (start_reach (P.mounts places) tree user first) (start_of (P.mounts places) tree user input first) result }
    {
        trees_are_kept(&tree);
        match start(alloc, &places, tree, user, input, first) {
            Ok(started) => {
                let broken = first_rule::<MARKED>(&started.reach);
                let rule = first_rule::<1>(&started.reach);
                let paused = Vec::new(alloc);
                let kernel = Kernel {
                    alloc,
                    places,
                    stops,
                    state: started.state,
                    status: 0,
                    broken,
                    turns: 0,
                    calls: 0,
                    shape_changes: 0,
                    byte_changes: 0,
                    met: started.reach.met_proc,
                    paused,
                    whole: true,
                };
                Ok((kernel, rule))
            }
            Err(fault) => Err(fault),
        }
    }
}

impl<P: Places, S: Stops, const MARKED: u8> Kernel<P, S, MARKED> {
    /// The number of the process that is ready as the `k`-th, counted from 0 in order of their numbers; `None` exactly where there are no
    /// more than `k`.
    pub fn ready(&self, k: usize) -> Option<u32>
        requires { self.now.whole ≡ true }
        ensures { result ≡ option_map (λ p. p.pid) (slice_get (ready_processes (machine P.number self.now).state) k) }
    {
        lawful_states_are_sound::<P::Mount, MARKED>();
        ready(&self.state, k)
    }

    /// How many processes live.
    pub fn living(&self) -> usize
        ensures { result ≡ length (machine P.number self.now).state.living }
    {
        self.state.living.len()
    }

    /// The process that a turn runs by its pick: that at the place `pick`, modulo their number, among those that are ready in order of their
    /// numbers; `None` exactly where none is ready.
    pub fn picked(&self, pick: u32) -> Option<u32>
        requires { self.now.whole ≡ true }
        ensures { IsPicked P.number pick self.now result }
    {
        lawful_states_are_sound::<P::Mount, MARKED>();
        picked(&self.state, pick)
    }

    /// What a process does next; `None` exactly where it doesn't live.
    pub fn phase(&self, pid: u32) -> Option<Phase>
        requires { self.now.whole ≡ true }
        ensures { result ≡ phase_of P.number pid self.now }
    {
        lawful_states_are_sound::<P::Mount, MARKED>();
        match self.state.index_of(pid) {
            Some(_) => Some(phase_at(between_of(self.paused.as_slice(), pid))),
            None => None,
        }
    }

    /// Whether a process stands behind the first stop of a call that was execve(2) before that stop.
    pub fn last_is_exec(&self, pid: u32) -> bool
        ensures { result ≡ is_exec_at (between_of pid self.now.paused) }
    {
        match begun_at(between_of(self.paused.as_slice(), pid)) {
            Some(begun) => begun.exec,
            None => false,
        }
    }

    /// Does instructions of a process that runs until `fuel` of them were done, a call is met, at which it then stands, or it dies. Tells how
    /// many were done: one that kills counts, a call doesn't. After want of memory the kernel may only be dropped, as after that of each step.
    pub fn run_pid(&mut self, pid: u32, fuel: u32) -> Result<u32, NoMemory>
        requires whole { self.old.whole ≡ true }
        requires fuel { 1 ≤ fuel }
        requires phase { phase_of P.number pid self.old ≡ Some Phase.Running }
        ensures moves { IfOk result (λ done. HasMoved P.number (watching S.enters S.exits S.bears S.forgets) (P.mounts self.old.places) fuel pid (Instructions done) self.old self.new) }
        ensures counted { OnOk result (IsCounted P.number self.old self.new) }
        ensures met { OnOk result (self.new.met ≡ self.old.met) }
        ensures whole { OnOk result (self.new.whole ≡ true) }
    {
        let told = self.run(pid, fuel)?;
        Ok(told.done)
    }

    /// The first stop of the call at which a process stands.
    pub fn enter(&mut self, pid: u32) -> Result<(), NoMemory>
        requires whole { self.old.whole ≡ true }
        requires phase { phase_of P.number pid self.old ≡ Some Phase.AtCall }
        ensures moves { OnOk result ((fuel : ℕ) → HasMoved P.number (watching S.enters S.exits S.bears S.forgets) (P.mounts self.old.places) fuel pid Entry self.old self.new) }
        ensures phase { OnOk result (phase_of P.number pid self.new ≡ Some Phase.Entered) }
        ensures counted { OnOk result (IsCounted P.number self.old self.new) }
        ensures met { OnOk result (self.new.met ≡ (self.old.met || S.asks self.old.stops (calling MARKED pid (machine P.number self.old).state))) }
        ensures whole { OnOk result (self.new.whole ≡ true) }
    {
        lawful_states_are_sound::<P::Mount, MARKED>();
        self.whole = false;
        let exec = calls_execve(&self.state, pid);
        let EntryMade { no_shelf, met } = enter_call(
            self.alloc,
            &self.places,
            &mut self.stops,
            &mut self.state,
            self.calls,
            pid,
        )?;
        let begun = Begun { no_shelf, exec };
        pause(&mut self.paused, pid, Between::Entered(begun))?;
        self.met = either(self.met, met);
        self.whole = true;
        Ok(())
    }

    /// The call of a process behind its first stop. Tells whether it is done: one that waits isn't, and its caller stays where it stands. A child
    /// runs.
    pub fn plain(&mut self, pid: u32) -> Result<bool, NoMemory>
        requires whole { self.old.whole ≡ true }
        requires few { self.old.calls < 2 ^ 31 }
        requires phase { phase_of P.number pid self.old ≡ Some Phase.Entered }
        ensures moves { OnOk result ((fuel : ℕ) → HasMoved P.number (watching S.enters S.exits S.bears S.forgets) (P.mounts self.old.places) fuel pid (Plain (is_exec_at (between_of pid self.old.paused))) self.old self.new) }
        ensures waits { IfOk result (λ done. (done ≡ false) ↔ ((plain_call (P.mounts self.old.places) pid (machine P.number self.old).state).end ≡ Waits)) }
        ensures child { OnOk result (BornRun P.number self.old self.new) }
        ensures counted { OnOk result (IsCounted P.number self.old self.new) }
        ensures met { OnOk result (self.new.met ≡ (self.old.met || (plain_reach (P.mounts self.old.places) pid (machine P.number self.old).state nothing_reached).met_proc)) }
        ensures whole { OnOk result (self.new.whole ≡ true) }
    {
        let after = self.call(pid)?;
        Ok(is_done(after))
    }

    /// The second stop of a call that is done.
    pub fn leave(&mut self, pid: u32) -> Result<(), NoMemory>
        requires whole { self.old.whole ≡ true }
        requires phase { phase_of P.number pid self.old ≡ Some Phase.Done }
        ensures moves { OnOk result ((fuel : ℕ) → HasMoved P.number (watching S.enters S.exits S.bears S.forgets) (P.mounts self.old.places) fuel pid Exit self.old self.new) }
        ensures phase { OnOk result (phase_of P.number pid self.new ≡ Some Phase.Running) }
        ensures counted { OnOk result (IsCounted P.number self.old self.new) }
        ensures met { OnOk result (self.new.met ≡ self.old.met) }
        ensures whole { OnOk result (self.new.whole ≡ true) }
    {
        let Some(handed) = handed_at(between_of(self.paused.as_slice(), pid)) else {
            unreachable!();
        };
        self.whole = false;
        leave_call(
            self.alloc,
            &self.places,
            &mut self.stops,
            &mut self.state,
            self.calls,
            pid,
            handed,
        )?;
        let_run(&mut self.paused, pid);
        self.whole = true;
        Ok(())
    }

    /// A turn of a kernel all of whose processes run: of the ready processes in order of their numbers, that at the place `pick`, modulo their
    /// number, runs until it did `fuel` instructions, it called, or it died. All run behind it: one whose call waits does so at that call. After
    /// want of memory the kernel may only be dropped.
    pub fn turn(&mut self, pick: u32, fuel: u32) -> Result<Turned, NoMemory>
        requires whole { self.old.whole ≡ true }
        requires running { self.old.paused ≡ [] }
        requires fuel { 1 ≤ fuel }
        requires few { self.old.turns < 2 ^ 31 }
        requires few_calls { self.old.calls < 2 ^ 31 }
        ensures turns { IfOk result (λ turned. Turns P.number (watching S.enters S.exits S.bears S.forgets) (P.mounts self.old.places) pick fuel self.old self.new turned) }
        ensures met { IfOk result (λ turned. TurnMeets P.number (watching S.enters S.exits S.bears S.forgets) (P.mounts self.old.places) S.asks pick fuel self.old self.new turned) }
        ensures whole { OnOk result (self.new.whole ≡ true) }
        ensures running { OnOk result (self.new.paused ≡ []) }
        ensures calls { OnOk result (self.new.calls ≤ suc self.old.calls) }
    {
        if self.state.living.is_empty() {
            return Ok(Turned::Over);
        }
        let Some(pid) = self.picked(pick) else {
            return Ok(Turned::Deadlock);
        };
        self.run_turn(pid, fuel)?;
        self.turns += 1;
        Ok(Turned::Ran)
    }

    /// Does instructions of a process that runs, and keeps where it stands then.
    fn run(&mut self, pid: u32, fuel: u32) -> Result<Stretch, NoMemory>
        requires whole { self.old.whole ≡ true }
        requires phase { phase_of P.number pid self.old ≡ Some Phase.Running }
        ensures runs { IfOk result (λ told. HasRunFor P.number (watching S.enters S.exits S.bears S.forgets) (P.mounts self.old.places) fuel pid self.old self.new told) }
        ensures phase { IfOk result (λ told. told.halt ≡ Halt.AtCall → phase_of P.number pid self.new ≡ Some Phase.AtCall) }
        ensures counted { OnOk result (IsCounted P.number self.old self.new) }
        ensures met { OnOk result (self.new.met ≡ self.old.met) }
        ensures whole { OnOk result (self.new.whole ≡ true) }
    {
        self.whole = false;
        let told = run_for(&mut self.stops, &mut self.state, pid, fuel)?;
        pause_by(&mut self.paused, pid, told.halt)?;
        let ended = told.halt.status();
        self.status = status_after(ended, self.status);
        self.broken = first_of(self.broken, told.broken);
        self.whole = true;
        Ok(told)
    }

    /// Carries out a call behind its first stop, and keeps where it leaves its caller.
    fn call(&mut self, pid: u32) -> Result<After, NoMemory>
        requires whole { self.old.whole ≡ true }
        requires few { self.old.calls < 2 ^ 31 }
        requires phase { phase_of P.number pid self.old ≡ Some Phase.Entered }
        ensures called { IfOk result (λ after. HasCalled P.number (watching S.enters S.exits S.bears S.forgets) (P.mounts self.old.places) pid self.old self.new after) }
        ensures phase { IfOk result (λ after. IsLeftAt P.number pid self.new after) }
        ensures child { OnOk result (BornRun P.number self.old self.new) }
        ensures counted { OnOk result (IsCounted P.number self.old self.new) }
        ensures met { OnOk result (self.new.met ≡ (self.old.met || (plain_reach (P.mounts self.old.places) pid (machine P.number self.old).state nothing_reached).met_proc)) }
        ensures whole { OnOk result (self.new.whole ≡ true) }
    {
        let Some(begun) = begun_at(between_of(self.paused.as_slice(), pid)) else {
            unreachable!();
        };
        self.whole = false;
        let made = make_call(
            self.alloc,
            &self.places,
            &mut self.stops,
            &mut self.state,
            self.calls,
            pid,
            begun.no_shelf,
        )?;
        pause_after(&mut self.paused, pid, made.after)?;
        self.status = status_after(made.status, self.status);
        self.broken = first_of(self.broken, made.broken);
        let shape = raised(self.shape_changes, made.altered.shape);
        let bytes = raised(self.byte_changes, made.altered.bytes);
        self.shape_changes = shape;
        self.byte_changes = bytes;
        self.calls += 1;
        self.met = either(self.met, made.met);
        self.whole = true;
        Ok(made.after)
    }

    /// A turn of a living process, in a kernel all of whose processes run.
    fn run_turn(&mut self, pid: u32, fuel: u32) -> Result<(), NoMemory>
        requires whole { self.old.whole ≡ true }
        requires running { self.old.paused ≡ [] }
        requires few { self.old.calls < 2 ^ 31 }
        requires lives { IsSome (process pid (machine P.number self.old).state) }
        ensures turn { OnOk result (HasTurned P.number (watching S.enters S.exits S.bears S.forgets) (P.mounts self.old.places) fuel pid self.old self.new) }
        ensures met { OnOk result (HasMetIn P.number (watching S.enters S.exits S.bears S.forgets) (P.mounts self.old.places) S.asks fuel pid self.old self.new.met) }
        ensures whole { OnOk result (self.new.whole ≡ true) }
    {
        let told = self.run(pid, fuel)?;
        match told.halt {
            Halt::AtCall => self.run_call(pid),
            Halt::Spent => Ok(()),
            Halt::Killed(_status) => Ok(()),
        }
    }

    /// The whole call of a process that stands at it, while all others run. One whose call waits runs again.
    fn run_call(&mut self, pid: u32) -> Result<(), NoMemory>
        requires whole { self.old.whole ≡ true }
        requires few { self.old.calls < 2 ^ 31 }
        requires alone { self.old.paused ≡ paused_at pid Between.AtCall [] }
        requires phase { phase_of P.number pid self.old ≡ Some Phase.AtCall }
        ensures call { OnOk result (HasMadeCall P.number (watching S.enters S.exits S.bears S.forgets) (P.mounts self.old.places) pid self.old self.new) }
        ensures met { OnOk result (HasMetAt MARKED (watching S.enters S.exits S.bears S.forgets) (P.mounts self.old.places) S.asks pid (machine P.number self.old) self.old.met self.new.met) }
        ensures whole { OnOk result (self.new.whole ≡ true) }
    {
        self.enter(pid)?;
        let after = self.call(pid)?;
        match after {
            After::Waiting => {
                self.run_again(pid);
                Ok(())
            }
            After::Behind(_handed) => self.leave(pid),
            After::Gone => Ok(()),
        }
    }

    /// Lets a process run, wherever it stood.
    fn run_again(&mut self, pid: u32)
        ensures { RunsAgain P.number pid self.old self.new }
    {
        let_run(&mut self.paused, pid);
    }

    /// The bytes that the guest put out since they were cleared.
    pub fn out(&self) -> &[u8]
        ensures { result.now ≡ (machine P.number self.now).state.out }
    {
        self.state.out.as_slice()
    }

    /// Those that it put out as errors.
    pub fn err(&self) -> &[u8]
        ensures { result.now ≡ (machine P.number self.now).state.err }
    {
        self.state.err.as_slice()
    }

    /// Forgets the bytes that were put out.
    pub fn clear_bytes(&mut self)
        ensures { Clears P.number self.old self.new }
    {
        self.state.out.clear();
        self.state.err.clear();
    }

    /// The status of the process that ended last, 0 before one did: its exit code, or 128 and the number of the signal that killed it.
    pub fn status(&self) -> u8
        ensures { result ≡ self.now.status }
    {
        self.status
    }

    /// The number of the calm rule that was broken first, the walks of the start among what is judged; `None` also where marks aren't kept.
    pub fn broken(&self) -> Option<u8>
        ensures { result ≡ option_map rule_number self.now.broken }
    {
        match self.broken {
            Some(rule) => Some(rule.number()),
            None => None,
        }
    }

    /// How many calls altered the shape of the tree: all that is reached from the root, with its names, kinds, modes, owners, groups and links'
    /// texts.
    pub fn shape_changes(&self) -> u64
        ensures { result ≡ self.now.shape_changes }
    {
        self.shape_changes
    }

    /// How many calls altered the bytes of a file. A write of the bytes that stand there and a cut to the size that a file has alter none.
    pub fn byte_changes(&self) -> u64
        ensures { result ≡ self.now.byte_changes }
    {
        self.byte_changes
    }

    /// Whether a walk looked up a name in the process directory: one of the start, of a call that was carried out, or of a peek at a first stop.
    pub fn met_proc(&self) -> bool
        ensures { result ≡ self.now.met }
    {
        self.met
    }

    /// The host's tree.
    pub fn tree(&self) -> &Tree
        ensures { result.now ≡ (machine P.number self.now).state.tree }
    {
        &self.state.tree
    }
}

/// The rule that the walks of a start break, where marks are kept.
fn first_rule<const MARKED: u8>(reach: &Reach) -> Option<Rule>
    ensures { result ≡ first_rule MARKED reach.now }
{
    if MARKED != 0 && reaches_too_far(reach) {
        Some(Rule::ShortNames)
    } else {
        None
    }
}

/// Whether the call at which a living process stands is execve(2).
fn calls_execve<T: Copy, const M: u8>(state: &State<T, M>, pid: u32) -> bool
    requires { IsSoundFor pid state.now }
    ensures { (number : T → ℕ) → result ≡ calls_execve pid (state_numbered number (meaning state.now)) }
{
    register(state, pid, A7) == EXECVE
}

/// Whether a call is done, so that it doesn't wait.
fn is_done(after: After) -> bool
    ensures { result ≡ is_done after }
{
    match after {
        After::Waiting => false,
        After::Behind(_) => true,
        After::Gone => true,
    }
}

/// The status of the process that ended last, after a step in which one may have ended.
fn status_after(told: Option<u8>, status: u8) -> u8
    ensures { result ≡ option_map_or (λ own. own) told status }
{
    match told {
        Some(own) => own,
        None => status,
    }
}

/// A count, one more of what was told.
fn raised(count: u64, told: bool) -> u64
    requires { count < 2 ^ 31 }
    ensures { result ≡ raised count told }
{
    if told { count + 1 } else { count }
}

/// Whether one of two holds.
fn either(one: bool, other: bool) -> bool
    ensures { result ≡ (one || other) }
{
    one || other
}

/// The rule that was broken first.
fn first_of(before: Option<Rule>, now: Option<Rule>) -> Option<Rule>
    ensures { result ≡ kept before now }
{
    match before {
        Some(rule) => Some(rule),
        None => now,
    }
}
