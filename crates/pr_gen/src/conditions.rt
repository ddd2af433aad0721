//! What is asked of the steps of a probe.
ghost use Rattle.std.specs.Prelude.{◌≡◌, ◌↔◌, [], ◌∷◌, All, IsTrue, IfNone, IfSome};
ghost use Rattle.pr_gen.specs.Steps.{AreEarlier, IsEarlier, IsProbe, IsStepEarlier, texts, texts_in, texts_of};
ghost use Rattle.pr_gen.specs.Budget.{Fits, budget};

use crate::steps::{Arg, ProbeStep};
use rv_asm::below::Texts;

/// The most steps.
const MOST_STEPS: usize = 256;
/// The most texts.
const MOST_TEXTS: u64 = 65_536;
/// The most bytes of texts.
const MOST_BYTES: u64 = 1_048_576;

/// How many texts, and how many bytes of them, there may still be.
#[derive(Clone, Copy)]
pub struct Budget {
    texts: u64,
    bytes: u64,
}

impl Budget {
    ghost use Rattle.pr_gen.specs.Steps.{texts, texts_in, texts_of};
    ghost use Rattle.pr_gen.specs.Budget.{Fits, left_after, step_texts};

    // What is left after a text; `None` where it is too much, or where it holds a zero byte.
    fn after_text(self, text: &[u8]) -> Option<Budget>
        ensures some { IfSome result (λ left. Fits self (text.now ∷ []) × (left ≡ left_after self (text.now ∷ []))) }
        ensures none { IfNone result (Fits self (text.now ∷ []) → ⊥) }
    {
        if text.contains(&0) {
            return None;
        }
        let bytes = self.bytes.checked_sub(text.len() as u64)?;
        let texts = self.texts.checked_sub(1)?;
        Some(Budget { texts, bytes })
    }

    // What is left after the texts of a list.
    fn after_list(self, list: &Texts) -> Option<Budget>
        ensures some { IfSome result (λ left. Fits self list.now × (left ≡ left_after self list.now)) }
        ensures none { IfNone result (Fits self list.now → ⊥) }
    {
        let mut left = self;
        let mut k = 0;
        while let Some(text) = list.at(k) {
            left = left.after_text(text)?;
            k += 1;
        }
        Some(left)
    }

    // What is left after the texts of an argument.
    fn after_arg(self, arg: &Arg) -> Option<Budget>
        ensures some { IfSome result (λ left. Fits self (texts_of arg.now) × (left ≡ left_after self (texts_of arg.now))) }
        ensures none { IfNone result (Fits self (texts_of arg.now) → ⊥) }
    {
        match arg {
            Arg::Text(text) => self.after_text(text.as_slice()),
            Arg::List(list) => self.after_list(list),
            Arg::Num(_) | Arg::Buf | Arg::Answer(_) => Some(self),
        }
    }

    // What is left after the texts of arguments.
    fn after_args(self, args: &[Arg]) -> Option<Budget>
        ensures some { IfSome result (λ left. Fits self (texts_in args.now) × (left ≡ left_after self (texts_in args.now))) }
        ensures none { IfNone result (Fits self (texts_in args.now) → ⊥) }
    {
        let mut left = self;
        for arg in args {
            left = left.after_arg(arg)?;
        }
        Some(left)
    }

    // What is left after the texts of a step.
    fn after_step(self, step: &ProbeStep) -> Option<Budget>
        ensures some { IfSome result (λ left. Fits self (step_texts step.now) × (left ≡ left_after self (step_texts step.now))) }
        ensures none { IfNone result (Fits self (step_texts step.now) → ⊥) }
    {
        match step {
            ProbeStep::Call { args, .. } => self.after_args(args),
            ProbeStep::SetSp(_) => Some(self),
        }
    }

    // What is left after the texts of all steps.
    fn after_steps(self, steps: &[ProbeStep]) -> Option<Budget>
        ensures some { IfSome result (λ left. Fits self (texts steps.now) × (left ≡ left_after self (texts steps.now))) }
        ensures none { IfNone result (Fits self (texts steps.now) → ⊥) }
    {
        let mut left = self;
        for step in steps {
            left = left.after_step(step)?;
        }
        Some(left)
    }
}

impl Arg {
    ghost use Rattle.pr_gen.specs.Steps.{IsEarlier};

    // Whether it isn't the answer of a step that isn't before that at `place`.
    fn is_earlier(&self, place: u64) -> bool
        ensures { IsTrue result ↔ IsEarlier place self.now }
    {
        match self {
            Arg::Answer(k) => u64::from(*k) < place,
            Arg::Num(_) | Arg::Text(_) | Arg::List(_) | Arg::Buf => true,
        }
    }
}

// Whether all its answers are those of steps before `place`.
fn is_step_earlier(step: &ProbeStep, place: u64) -> bool
    ensures { IsTrue result ↔ IsStepEarlier place step.now }
{
    match step {
        ProbeStep::Call { args, .. } => args.iter().all(|arg| arg.is_earlier(place)),
        ProbeStep::SetSp(_) => true,
    }
}

// Whether all answers are those of earlier steps.
fn are_earlier(steps: &[ProbeStep]) -> bool
    ensures { IsTrue result ↔ AreEarlier 0 steps.now }
{
    for (place, step) in steps.iter().enumerate() {
        if !is_step_earlier(step, place as u64) {
            return false;
        }
    }
    true
}

// Whether the texts aren't too many and hold no zero bytes.
fn are_few_texts(steps: &[ProbeStep]) -> bool
    ensures { IsTrue result ↔ Fits (budget 65536 1048576) (texts steps.now) }
{
    let all = Budget {
        texts: MOST_TEXTS,
        bytes: MOST_BYTES,
    };
    all.after_steps(steps).is_some()
}

/// Whether the steps are those of a probe: at most 256; at most 65,536 texts, those of lists counted one
/// by one, with at most 1,048,576 bytes together and no zero byte; and only answers of earlier steps.
pub fn is_probe(steps: &[ProbeStep]) -> bool
    ensures { IsTrue result ↔ IsProbe steps.now }
{
    steps.len() <= MOST_STEPS && are_few_texts(steps) && are_earlier(steps)
}
