//! The paths that a walk reads: the one that it began with, and the texts of links.
ghost use Rattle.std.specs.Prelude.{◌≡◌, ◌≤◌, ◌∷◌, [], ◌++◌, length, not, IsTrue, MatchOption, OnOk, ◌↔◌};
ghost use Rattle.std.specs.List.{list_all};
ghost use Rattle.kr_view.specs.kr_tree.pr_base.Paths.{component_of};
ghost use Rattle.kr_walk.specs.Rests.{components_left, has_more};

use crate::rest::{Rest, Span};
use kr_view::below::pr_base::NoMemory;
use std::alloc::Global;

/// Paths of which a component is left, in the order in which they were met: the last one is read first, and
/// then the one before it.
#[derive(Drop)]
pub(crate) struct Rests {
    list: Vec<Rest>,
    ghost begun: { IsTrue (list_all has_more list.items) },
}

/// A component that was read, and what is left of its path.
#[derive(Drop)]
pub(crate) struct Taken {
    rest: Rest,
    span: Span,
    ghost begins: { span.begin ≤ span.end },
    ghost ends: { span.end ≤ length rest.text },
}

impl Taken {
    ghost use Rattle.kr_walk.specs.Stacks.{taken_bytes};

    pub(crate) fn bytes(&self) -> &[u8]
        ensures { result.now ≡ taken_bytes self.now }
    {
        self.rest.bytes(self.span)
    }

    /// What is left of the path.
    pub(crate) fn into_rest(self) -> Rest
        ensures { result ≡ self.rest }
    {
        self.rest
    }

    /// Whether no component of the path is left.
    fn is_done(&self) -> bool
        ensures { result ≡ not (has_more self.now.rest) }
    {
        self.rest.is_done()
    }
}

impl Rests {
    ghost use Rattle.kr_walk.specs.Stacks.{stack_of, taken_bytes};

    pub(crate) fn new(alloc: Global) -> Rests
        ensures { stack_of result ≡ [] }
    {
        Rests {
            list: Vec::new(alloc),
        }
    }

    /// Whether no component is left.
    fn is_empty(&self) -> bool
        ensures { IsTrue result ↔ (stack_of self.now ≡ []) }
    {
        self.list.is_empty()
    }

    /// Whether no component is left behind one that was taken.
    pub(crate) fn none_behind(&self, taken: &Taken) -> bool
        ensures all { IsTrue result ↔ (components_left taken.now.rest ++ stack_of self.now ≡ []) }
        ensures stack { IsTrue result → stack_of self.now ≡ [] }
    {
        taken.is_done() && self.is_empty()
    }

    /// Puts a path in front of what is left. Where no component of it is left it is dropped.
    pub(crate) fn push(&mut self, rest: Rest) -> Result<(), NoMemory>
        ensures { OnOk result (stack_of self.new ≡ components_left rest ++ stack_of self.old) }
    {
        if !rest.is_done() {
            self.list.push(rest)?;
        }
        Ok(())
    }

    /// Takes the next component, with the path in which it stands.
    pub(crate) fn next(&mut self) -> Option<Taken>
        ensures { MatchOption result (stack_of self.old ≡ []) (λ taken.
            stack_of self.old ≡ component_of (taken_bytes taken) ∷ (components_left taken.rest ++ stack_of self.new)) }
    {
        let mut rest = self.list.pop()?;
        let span = rest.next()?;
        Some(Taken { rest, span })
    }
}
