//! The names of rules that words, lines and bindings break, as the last line tells them.
ghost use Rattle.std.specs.Prelude.{Some};
ghost use Rattle.pr_sources.specs.Names.{bind_rule, tree_rule, word_rule};

use kr_start::below::{BindWhy, TreeWhy};
use pr_words::Why;
use std::fmt;

/// The rule that a word breaks, by its name.
#[derive(Clone, Copy)]
pub(crate) struct WordRule {
    pub(crate) why: Why,
}

impl fmt::Display for WordRule {
    ghost output = { λ rule. Some (word_rule rule.why) };

    fn fmt<W: fmt::Write>(&self, f: &mut fmt::Formatter<W>) -> fmt::Result {
        f.write_str(match self.why {
            Why::Unknown => "Unknown",
            Why::NoValue => "NoValue",
            Why::BadNumber => "BadNumber",
            Why::BadSchedule => "BadSchedule",
            Why::BadBind => "BadBind",
            Why::BadEnv => "BadEnv",
            Why::Twice => "Twice",
            Why::CalmAlone => "CalmAlone",
            Why::CaseAlone => "CaseAlone",
            Why::ZeroByte => "ZeroByte",
            Why::BadId => "BadId",
            Why::LooseAlone => "LooseAlone",
        })
    }
}

/// What is wrong with a line of the listing, by its name.
#[derive(Clone, Copy)]
pub(crate) struct TreeRule {
    pub(crate) why: TreeWhy,
}

impl fmt::Display for TreeRule {
    ghost output = { λ rule. Some (tree_rule rule.why) };

    fn fmt<W: fmt::Write>(&self, f: &mut fmt::Formatter<W>) -> fmt::Result {
        f.write_str(match self.why {
            TreeWhy::Form => "Form",
            TreeWhy::Number => "Number",
            TreeWhy::Name => "Name",
            TreeWhy::NoParent => "NoParent",
            TreeWhy::Twice => "Twice",
            TreeWhy::NoTarget => "NoTarget",
            TreeWhy::RootUser => "RootUser",
            TreeWhy::NoUser => "NoUser",
            TreeWhy::NoRoot => "NoRoot",
            TreeWhy::TwoElf => "TwoElf",
            TreeWhy::TooBig => "TooBig",
        })
    }
}

/// Why a binding is refused, by its name.
#[derive(Clone, Copy)]
pub(crate) struct BindRule {
    pub(crate) why: BindWhy,
}

impl fmt::Display for BindRule {
    ghost output = { λ rule. Some (bind_rule rule.why) };

    fn fmt<W: fmt::Write>(&self, f: &mut fmt::Formatter<W>) -> fmt::Result {
        f.write_str(match self.why {
            BindWhy::NoSource => "NoSource",
            BindWhy::NoPoint => "NoPoint",
            BindWhy::Kind => "Kind",
            BindWhy::LinkOnTheWay => "LinkOnTheWay",
            BindWhy::RootNotDir => "RootNotDir",
            BindWhy::AtRoot => "AtRoot",
        })
    }
}
