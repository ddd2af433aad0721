//! What a quiet loose run comes to is what the run over mounts comes to for which it stands: laws, and no code.
//!
//! What is proved, with the law that carries it:
//!
//! Where a loose run that a tracer watches, without an identity, is quiet, and the run over mounts of the same words by the slots of its turns breaks no
//! calm rule, its start included, the same is told of both: the bytes to out and to err in their order, how they end, the status, and the nodes of the
//! tree (`loose_machines_agree`). How the bytes are parted among steps and turns isn't compared. The steps may be spent, or none be ready, in the midst of
//! calls.
//!
//! So it is of what words with `--loose` begin, and what they begin over mounts (`loose_words_agree`).
//!
//! On the way to it, of starts: nothing was put, no process stays at a call and no byte is marked; the first process stands at an inode, and what is open
//! in it has no place (`starts_are_fresh`).
//!
//! Of a tracer without an identity: behind turns of other processes that leave the shape of the tree, behind a wait of its own, and in a state that is the
//! same but for what others compute on, a process and what its paths lead to are what they were (`tracers_stay_beside`), as long as no process comes to
//! stand in the process directory. None comes there where no walk looks up a name in it.
//!
//! Of two machines in the midst of their runs: where each turn that breaks no calm rule keeps them together, which is a premise as in `runs_come_alike` of
//! law_turns, they are together behind each number of turns of a calm run, and keep on what they keep from turn to turn (`runs_go_together`). A run goes by
//! no more slots than it has turns: where two lists of slots agree as far as its turns, both runs are one (`runs_go_by_slots`).
//!
//! A calm run over mounts and the run that a tracer watches on the same words come to the same, whatever the slots of their turns are, and not by the
//! slots of a plan alone; and behind each number of its turns the watched machine is lawful, with what lasts, and made of bytes (`calm_runs_last`). Such a
//! run is that of a plan whose schedule has these slots, with as many turns (`schedules_are_slots`).
//!
//! Only tested, or not shown: Nothing is said of a loose run that isn't quiet, of one whose turns over mounts aren't calm, and of identities, which words
//! with `--loose` don't ask for.
#![tactic(auto)]

pub mod below;
pub mod laws;
