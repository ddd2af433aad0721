//! Why words can't be read.

ghost use Rattle.std.specs.Prelude.{◌≡◌};
ghost use Rattle.pr_words.specs.Rules.{number_of_rule, smaller};

use pr_base::NoMemory;

/// The rule that a word breaks. Of the rules up to `Twice` and `BadId` that one word breaks the one with
/// the smallest number counts.
#[derive(Clone, Copy)]
pub enum Why {
    /// There is no such option.
    Unknown = 1,
    /// A short option is the last word, or a long one has no `=`.
    NoValue = 2,
    /// The value isn't one to eight digits of a number in range.
    BadNumber = 3,
    /// The value isn't a list of 1 to 1,024 slots in range.
    BadSchedule = 4,
    /// A part of the binding is empty.
    BadBind = 5,
    /// The variable has no `=`, or no name before it.
    BadEnv = 6,
    /// The option was given before.
    Twice = 7,
    /// `--calm` is given without `--native`.
    CalmAlone = 8,
    /// `--case` stands with an option other than `--turns` and `--schedule`, or with a command.
    CaseAlone = 9,
    /// The word has a zero byte.
    ZeroByte = 10,
    /// The value isn't two numbers of a user and a group with a `:` between them.
    BadId = 11,
    /// `--loose` stands with `--native`, with `--schedule` or with an option of the identity.
    LooseAlone = 12,
}

impl Why {
    /// The rule's number.
    pub fn number(self) -> u8
        ensures { result ≡ number_of_rule self }
    {
        self as u8
    }

    /// This rule or another one, whichever has the smaller number.
    pub(crate) fn or_smaller(self, other: Why) -> Why
        ensures { result ≡ smaller self other }
    {
        if self.number() <= other.number() {
            self
        } else {
            other
        }
    }
}

/// Why words weren't read.
#[derive(Clone, Copy)]
pub enum WordsFault {
    /// The first word that breaks a rule, counted from 1, and the rule. It is the option's word, also
    /// where its value is the next word.
    Usage { word: u32, why: Why },
    NoMemory,
}

impl From<NoMemory> for WordsFault {
    ghost use Rattle.std.specs.Prelude.{◌≡◌};
    ghost use Rattle.pr_words.specs.declared.fault.WordsFault.TheVariants.{NoMemory as NoMemoryForWords};

    ghost from_gives = { λ error fault. fault ≡ NoMemoryForWords };

    fn from(_error: NoMemory) -> WordsFault {
        WordsFault::NoMemory
    }
}

/// Why an option wasn't read.
#[derive(Clone, Copy)]
pub(crate) enum OptionFault {
    Broken(Why),
    NoMemory,
}

impl From<Why> for OptionFault {
    ghost use Rattle.std.specs.Prelude.{◌≡◌};
    ghost use Rattle.pr_words.specs.declared.fault.OptionFault.TheVariants.{Broken};

    ghost from_gives = { λ why fault. fault ≡ Broken why };

    fn from(why: Why) -> OptionFault {
        OptionFault::Broken(why)
    }
}

impl From<NoMemory> for OptionFault {
    ghost use Rattle.std.specs.Prelude.{◌≡◌};
    ghost use Rattle.pr_words.specs.declared.fault.OptionFault.TheVariants.{NoMemory as NoMemoryForOption};

    ghost from_gives = { λ error fault. fault ≡ NoMemoryForOption };

    fn from(_error: NoMemory) -> OptionFault {
        OptionFault::NoMemory
    }
}
