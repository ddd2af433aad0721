//! Laws of loose runs and of the turns for which they stand, each carried by a function that does nothing.
ghost use Rattle.law_loosely.specs.Fresh.{StartsAreFresh};
ghost use Rattle.law_loosely.specs.LooseWords.{LooseWordsAgree};
ghost use Rattle.law_loosely.specs.Loosely.{LooseMachinesAgree};
ghost use Rattle.law_loosely.specs.Midway.{RunsGoBySlots, RunsGoTogether};
ghost use Rattle.law_loosely.specs.Schedules.{SchedulesAreSlots};
ghost use Rattle.law_loosely.specs.Staying.{TracersStayBeside};
ghost use Rattle.law_loosely.specs.Turnwise.{CalmRunsLast};

use law_entries::laws::tracers_are_local;
use law_machines::below::{shelves_hold_their_items, texts_are_read_back};

/// A start that isn't refused is fresh.
pub fn starts_are_fresh()
    ensures { StartsAreFresh }
{}

/// What a tracer without an identity goes by lasts.
pub fn tracers_stay_beside()
    ensures { TracersStayBeside }
{}

/// Behind each number of turns of a calm run both machines are together, where each turn that breaks no calm rule keeps them so.
pub fn runs_go_together<S, T, V>()
    ensures { RunsGoTogether S T V }
{}

/// A run goes by the slots of its turns alone.
pub fn runs_go_by_slots<S>()
    ensures { RunsGoBySlots S }
{}

/// A calm run over mounts, without an identity, and the watched run of the same words come to the same by whatever slots, and the watched machine is
/// lawful and made of bytes behind each of its turns.
pub fn calm_runs_last()
    ensures { CalmRunsLast }
{
    texts_are_read_back();
    shelves_hold_their_items();
}

/// Slots in the schedule of a plan, with as many turns, make the run by them.
pub fn schedules_are_slots()
    ensures { SchedulesAreSlots }
{}

/// A quiet loose run comes to what the calm run over mounts comes to for which it stands.
pub fn loose_machines_agree()
    ensures { LooseMachinesAgree }
{
    texts_are_read_back();
    shelves_hold_their_items();
    tracers_are_local();
}

/// And so it is of words and sources.
pub fn loose_words_agree()
    ensures { LooseWordsAgree }
{
    texts_are_read_back();
    shelves_hold_their_items();
    tracers_are_local();
}
