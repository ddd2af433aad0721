//! Schedules.
ghost use Rattle.std.specs.Prelude.{◌≡◌, ◌==◌, count_by, IfOk};
ghost use Rattle.pr_words.specs.Values.{schedule_of};

use crate::options::Slots;
use crate::spelling::cut_at;
use crate::value::slot_of;
use pr_base::NoMemory;
use std::alloc::Global;

/// The most slots of a schedule.
const MOST_SLOTS: usize = 1024;

fn count_of(text: &[u8], c: u8) -> usize
    ensures { result ≡ count_by (λ b. b == c) text.now }
{
    text.iter().filter(|byte| **byte == c).count()
}

/// The slots of a schedule; `None` where the text is none.
pub(crate) fn schedule_of(alloc: Global, text: &[u8]) -> Result<Option<Slots>, NoMemory>
    ensures { IfOk result (λ slots. slots ≡ schedule_of text.now) }
{
    if count_of(text, b',') >= MOST_SLOTS {
        return Ok(None);
    }
    let mut slots = Vec::new(alloc);
    let mut rest = text;
    while let Some((first, behind)) = cut_at(rest, b',') {
        let Some(slot) = slot_of(first) else {
            return Ok(None);
        };
        slots.push(slot)?;
        rest = behind;
    }
    let Some(last) = slot_of(rest) else {
        return Ok(None);
    };
    slots.push(last)?;
    Ok(Some(Slots::from(slots)))
}
