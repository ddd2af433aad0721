//! The auxiliary vector of a new program (getauxval(3)), which stands on its stack behind its arguments and its environment.
ghost use Rattle.std.specs.Prelude.{◌≡◌, OnOk};
ghost use Rattle.pt_faker.specs.Stopping.{OnlyEdits};
ghost use Rattle.pt_faker.specs.Carrying.{GoesOn, on_its_memory};
ghost use Rattle.pt_faker.specs.Faking.{behind_list, put_values, show_identity, word_at};

use crate::memory::write;
use elf_load::below::pr_base::NoMemory;
use kr_stops::Tracee;
use pt_ident::below::rv_mem::Use;
use pt_ident::{Ids, fix_aux};

/// A program has at most 4,096 arguments, or texts of the environment, whose addresses end with 0.
const MOST_WORDS: u32 = 4097;

/// The distance of AT_UID's value, that of the sixth pair; those of AT_EUID, AT_GID and AT_EGID follow.
const UID_VALUE: u64 = 88;

/// The bytes of a word, and of a pair.
const WORD: u64 = 8;

const PAIR: u64 = 16;

/// The word at an address, the lowest byte first; `None` where one of them can't be read.
fn read_word<T: Tracee>(t: &mut T, at: u64) -> Option<u64>
    ensures read { GoesOn (word_at at) result (T.stopped t.old) (T.stopped t.new) }
    ensures edits { OnlyEdits T.stopped T.around t.old t.new }
{
    // For the proof alone: the process lives.
    let _pid = t.pid();
    let mut bytes = [0; 8];
    match t.peek(at, &mut bytes, Use::Read) {
        Ok(()) => Some(u64::from_le_bytes(bytes)),
        Err(_) => None,
    }
}

/// The address behind a list of words, its last one 0; `None` where one can't be read, or there are more than `most`.
fn behind_list<T: Tracee>(t: &mut T, most: u32, at: u64) -> Option<u64>
    ensures behind { GoesOn (behind_list most at) result (T.stopped t.old) (T.stopped t.new) }
    ensures edits { OnlyEdits T.stopped T.around t.old t.new }
{
    // For the proof alone: the process lives.
    let _pid = t.pid();
    let mut next = at;
    for _word in 0..most {
        let Some(word) = read_word(t, next) else {
            return None;
        };
        next = next.wrapping_add(WORD);
        if word == 0 {
            return Some(next);
        }
    }
    None
}

/// Writes the values of pairs that stand one behind the other, up to one that can't be written. After want of memory the process may
/// only be dropped.
fn put_values<T: Tracee>(t: &mut T, at: u64, values: &[u32]) -> Result<(), NoMemory>
    ensures puts { OnOk result (T.stopped t.new ≡ on_its_memory (put_values at values.now) (T.stopped t.old)) }
    ensures edits { OnlyEdits T.stopped T.around t.old t.new }
{
    // For the proof alone: the process lives.
    let _pid = t.pid();
    let mut next = at;
    for value in values {
        if !t.can(next, WORD, Use::Write) {
            return Ok(());
        }
        write(t, next, &u64::from(*value).to_le_bytes())?;
        next = next.wrapping_add(PAIR);
    }
    Ok(())
}

/// Shows an identity in the auxiliary vector of a program that has just begun, at its stack pointer. After want of memory the process
/// may only be dropped.
pub fn show_identity<T: Tracee>(t: &mut T, ids: &Ids, stack: u64) -> Result<(), NoMemory>
    ensures shows { OnOk result (T.stopped t.new ≡ on_its_memory (show_identity ids.now stack) (T.stopped t.old)) }
    ensures edits { OnlyEdits T.stopped T.around t.old t.new }
{
    // For the proof alone: the process lives.
    let _pid = t.pid();
    let Some(environment) = behind_list(t, MOST_WORDS, stack.wrapping_add(WORD)) else {
        return Ok(());
    };
    let Some(pairs) = behind_list(t, MOST_WORDS, environment) else {
        return Ok(());
    };
    put_values(t, pairs.wrapping_add(UID_VALUE), &fix_aux(ids))
}
