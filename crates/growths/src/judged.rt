//! What came of a run in which a growth may have been refused.

use crate::scenes::{Scene, Turn};
use pr_call::Answer;

/// The status where memory was wanting.
const NO_MEMORY: u8 = 121;

/// What came of a run.
#[derive(Clone, Copy)]
pub(crate) enum Word {
    Input,
    Memory,
    Same,
    Wrong,
}

impl Word {
    /// The line that tells it.
    pub(crate) fn line(self) -> &'static [u8] {
        match self {
            Word::Input => b"INPUT\n",
            Word::Memory => b"MEMORY\n",
            Word::Same => b"SAME\n",
            Word::Wrong => b"WRONG\n",
        }
    }
}

/// What the output and the errors got, or what is left of it behind some turns.
#[derive(Clone, Copy)]
pub(crate) struct Put<'a> {
    pub(crate) out: &'a [u8],
    pub(crate) err: &'a [u8],
}

/// What comes of a run: the answer, what was put, and the listing.
#[derive(Clone, Copy)]
pub(crate) struct Told<'a> {
    pub(crate) answer: Answer,
    pub(crate) put: Put<'a>,
    pub(crate) left: &'a [u8],
}

/// How far a run was put.
#[derive(Clone, Copy)]
enum Reach {
    /// The first turns, each of them whole.
    Turns,
    /// All turns, and the line on calm.
    All,
    /// Something else.
    Torn,
}

/// What stands behind a text, where bytes begin with it.
fn behind<'a>(bytes: &'a [u8], text: &str) -> Option<&'a [u8]> {
    let (first, rest) = bytes.split_at(text.len().min(bytes.len()));
    if first == text.as_bytes() {
        Some(rest)
    } else {
        None
    }
}

impl<'a> Put<'a> {
    fn is_empty(self) -> bool {
        self.out.is_empty() && self.err.is_empty()
    }

    /// What is left behind a turn, where it was put whole.
    fn behind(self, turn: Turn) -> Option<Put<'a>> {
        match turn {
            Turn::Out(text) => Some(Put {
                out: behind(self.out, text)?,
                err: self.err,
            }),
            Turn::Errors(text) => Some(Put {
                out: self.out,
                err: behind(self.err, text)?,
            }),
        }
    }

    /// How far it reaches in these turns and the line on calm behind them.
    fn reach(self, turns: &[Turn], calm: &str) -> Reach {
        let mut rest = self;
        for turn in turns {
            if rest.is_empty() {
                return Reach::Turns;
            }
            match rest.behind(*turn) {
                Some(behind) => rest = behind,
                None => return Reach::Torn,
            }
        }
        if rest.out.is_empty() && rest.err == calm.as_bytes() {
            return Reach::All;
        }
        if rest.is_empty() {
            return Reach::Turns;
        }
        Reach::Torn
    }
}

/// Judges what came of a run of a scene, which leaves this listing where memory is ample.
pub(crate) fn judge(scene: &Scene, calm: &str, left: &[u8], told: Told<'_>) -> Word {
    let answer = told.answer;
    let reach = told.put.reach(scene.turns, calm);
    let is_ended = matches!(answer, Answer::Ended { status: 0 });
    if is_ended && matches!(reach, Reach::All) && told.left == left {
        return Word::Same;
    }
    let is_wanting = matches!(answer, Answer::NoMemory) && answer.status() == NO_MEMORY;
    if is_wanting && !matches!(reach, Reach::Torn) && told.left.is_empty() {
        return Word::Memory;
    }
    Word::Wrong
}
