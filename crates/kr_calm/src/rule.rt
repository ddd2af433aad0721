//! The six calm rules.
ghost use Rattle.std.specs.Prelude.{◌≡◌};

/// A calm rule, in the order in which the smallest one that is broken is told.
#[derive(Clone, Copy)]
pub enum Rule {
    /// No marked byte is read, and each call with a path has a shelf.
    Unread,
    /// No link and no rename leads from mount to mount, or from below one source or mount point to below another.
    WithinMounts,
    /// No binding's source is taken away, and no directory above a source or a mount point is renamed.
    SourcesStay,
    /// No directory in use, and none above one, moves or is removed.
    UsedStay,
    /// No directory loses search that is in use or bound, or that stands above such a one or above a binding's source.
    SearchStays,
    /// Every host name that a walk reaches has at most 4,000 bytes.
    ShortNames,
}

impl Rule {
    ghost use Rattle.kr_calm.specs.Calm.{rule_number};

    /// The number by which it is told.
    pub fn number(self) -> u8
        ensures { result ≡ rule_number self }
    {
        match self {
            Rule::Unread => 1,
            Rule::WithinMounts => 2,
            Rule::SourcesStay => 3,
            Rule::UsedStay => 4,
            Rule::SearchStays => 5,
            Rule::ShortNames => 6,
        }
    }
}
