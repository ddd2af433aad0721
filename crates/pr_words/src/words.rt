//! The words of a command line.
ghost use Rattle.std.specs.Prelude.{◌≡◌, ◌+◌, ◌<◌, ◌≤◌, ◌^◌, length, map, [], OnOk, IfOk};
ghost use Rattle.std.specs.List.{list_any, position};
ghost use Rattle.std.specs.String.{string_bytes};
ghost use Rattle.pr_words.specs.Answers.{IsAnswer};
ghost use Rattle.pr_words.specs.Reading.{has_zero, line_of, accepted, reading_of};
ghost use Rattle.pr_words.specs.Sound.{AreSound};
ghost use Rattle.pr_words.specs.Steps.{step_of, StepsTo};

use crate::fault::{OptionFault, Why, WordsFault};
use crate::options::Options;
use crate::so_far::SoFar;
use std::alloc::Global;

fn has_zero(word: &[u8]) -> bool
    ensures { result ≡ has_zero word.now }
{
    word.iter().any(|byte| *byte == 0)
}

/// The place of the first word with a zero byte, from 0.
fn place_of_zero(words: &[String]) -> Option<usize>
    ensures { result ≡ position (λ word. has_zero (string_bytes word)) words.now }
{
    words.iter().position(|word| has_zero(word.as_bytes()))
}

/// Reads the option at a place, and answers how many words it takes; none where the command begins.
fn read_option(
    alloc: Global,
    so_far: &mut SoFar,
    place: usize,
    word: &[u8],
    words: &[String],
) -> Result<usize, WordsFault>
    requires room { length so_far.old.binds + 1 < 2 ^ 32 }
    requires place { place < 2 ^ 32 }
    ensures value { StepsTo place (step_of place word.now (map string_bytes words.now) so_far.old) result so_far.new }
    ensures room { OnOk result (length so_far.new.binds ≤ length so_far.old.binds + 1) }
    ensures within { IfOk result (λ taken. taken ≤ length words.now + 1) }
{
    let word_place = place as u32;
    match so_far.read(alloc, word_place, word, words) {
        Ok(taken) => Ok(taken),
        Err(OptionFault::Broken(why)) => Err(WordsFault::Usage {
            word: word_place,
            why,
        }),
        Err(OptionFault::NoMemory) => Err(WordsFault::NoMemory),
    }
}

/// Reads options up to the command, none of whose words has a zero byte.
fn read_line(alloc: Global, words: &[String]) -> Result<Options, WordsFault>
    requires { length words.now < 2 ^ 32 }
    ensures { IsAnswer (accepted [] (line_of 1 (map string_bytes words.now))) result }
{
    let mut so_far = SoFar::new(alloc);
    let mut place = 1;
    let mut rest = words;
    while let Some((word, behind)) = rest.split_first() {
        let taken = read_option(alloc, &mut so_far, place, word.as_bytes(), behind)?;
        if taken == 0 {
            return so_far.finish(alloc, place, rest);
        }
        rest = &rest[taken..];
        place += taken;
    }
    so_far.finish(alloc, place, rest)
}

/// Reads the words of a command line: options, and then the command, which begins at the first word
/// that doesn't begin with `-`. Where words break a rule, the answer is the first such word and its rule:
/// a zero byte in a word first; then, word by word, the smallest number among the rules that the word
/// breaks; and last what may not stand beside `--case`, `--calm` without `--native`, and what `--loose` may
/// not stand beside. Nothing else is refused but for want of memory.
pub fn read(alloc: Global, words: &[String]) -> Result<Options, WordsFault>
    requires { length words.now < 2 ^ 32 }
    ensures answer { IsAnswer (reading_of (map string_bytes words.now)) result }
    ensures sound { IfOk result AreSound }
{
    if let Some(at) = place_of_zero(words) {
        return Err(WordsFault::Usage {
            word: at as u32 + 1,
            why: Why::ZeroByte,
        });
    }
    read_line(alloc, words)
}
