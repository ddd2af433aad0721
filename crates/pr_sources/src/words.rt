//! What the words ask for.
ghost use Rattle.std.specs.Prelude.{◌≡◌, ◌<◌, ◌^◌, length, map, IfErr, IfOk};
ghost use Rattle.std.specs.String.{string_bytes};
ghost use Rattle.pr_words.specs.Sound.{AreSound};
ghost use Rattle.pr_sources.specs.Asking.{IsOfAsking, IsUnlessNoMemory, asked};

use crate::Answer;
use pr_words::{Options, WordsFault, read};
use std::alloc::Global;

/// The options in the words, or the first word that breaks a rule.
pub fn ask(alloc: Global, words: &[String]) -> Result<Options, Answer>
    requires { length words.now < 2 ^ 32 }
    ensures answer { IsUnlessNoMemory (asked (map string_bytes words.now)) result }
    ensures kinds { IfErr result IsOfAsking }
    ensures sound { IfOk result AreSound }
{
    match read(alloc, words) {
        Ok(options) => Ok(options),
        Err(WordsFault::Usage { word, why }) => Err(Answer::Usage { word, why }),
        Err(WordsFault::NoMemory) => Err(Answer::NoMemory),
    }
}
