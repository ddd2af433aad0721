//! Which texts take the places of a call's paths, before they are put anywhere.
ghost use Rattle.std.specs.Prelude.{◌≡◌};
ghost use Rattle.kr_calls.specs.PathTable.{path_use};
ghost use Rattle.pt_canon.specs.pt_bind.Binding.{rows_of};
ghost use Rattle.pt_canon.specs.Canon.{IsAnswer, IsWalkNoted, texts_by};
ghost use Rattle.pt_args.specs.Plans.{plan_both, plan_first, plan_one, plan_second, second_unmet, swap_of};
ghost use Rattle.pt_args.specs.Walks.{IsReached};
ghost use Rattle.pt_canon.specs.Leaving.{OnlyPeeks};
ghost use Rattle.pt_canon.specs.Remembering.{Agrees, WalksOn};

use crate::caller::Caller;
use crate::point::{both_are_busy, one_is_busy};
use crate::purpose::{opens, text_for};
use crate::reached::Reached;
use kr_calls::{Request, path_of};
use pt_canon::below::pr_base::{Bytes, Errno, Peeks};
use pt_canon::below::pt_bind::Table;
use pt_canon::{WalkErr, Walker};
use std::alloc::Global;

/// A text in place of a path, and the number of the register that holds the path's address.
#[derive(Drop)]
pub(crate) struct Swapped {
    pub(crate) register: u8,
    pub(crate) text: Bytes,
}

/// What becomes of the paths of a call.
#[derive(Drop)]
pub(crate) enum Plan {
    /// They stay as they are, or there is none.
    Passes,
    /// The first one is swapped, and the second one if there is one that doesn't stay.
    Swaps(Swapped, Option<Swapped>),
}

impl<'a> Caller<'a> {
    /// What becomes of the paths of a call, once the first one was walked, or the error that cancels it. The first path is taken before the
    /// second.
    pub(crate) fn plan_second<K: Peeks>(
        &self,
        kernel: &mut K,
        walker: &mut Walker,
        request: &Request,
        first: &Reached,
    ) -> Result<Plan, WalkErr>
        requires first { IsReached first.now }
        requires agrees { Agrees walker.old (K.peeked kernel.old) }
        ensures answer { let texts = texts_by walker.old.table (K.peeked kernel.old) self.now.tags.now in
            IsAnswer (plan_second texts self.now.pid request.now first.now) result }
        ensures walker { WalksOn (K.peeked kernel.old) walker.old walker.new }
        ensures noted { let texts = texts_by walker.old.table (K.peeked kernel.old) self.now.tags.now in
            IsWalkNoted (second_unmet texts self.now.pid request.now (K.unmet kernel.old)) (K.unmet kernel.new) result }
        ensures kernel { OnlyPeeks K.peeked K.kept kernel.old kernel.new }
    {
        let Some(path) = path_of(request, 1) else {
            return plan_one(self.alloc, walker.table(), request, first);
        };
        match self.walk_path(kernel, walker, opens(request), path)? {
            Some(second) => plan_both(self.alloc, walker.table(), request, first, &second),
            None => plan_first(self.alloc, walker.table(), first),
        }
    }
}

/// The only path of a call.
fn plan_one(
    alloc: Global,
    table: &Table,
    request: &Request,
    only: &Reached,
) -> Result<Plan, WalkErr>
    requires { IsReached only.now }
    ensures { IsAnswer (plan_one (rows_of table.now) request.now only.now) result }
{
    let swapped = swap_of(alloc, table, only)?;
    let busy = one_is_busy(table, request, &only.canon)?;
    if busy {
        return Err(WalkErr::Err(Errno::EBUSY));
    }
    Ok(Plan::Swaps(swapped, None))
}

/// The first path alone, where the second one stays as it is: the plain kernel refuses the call.
fn plan_first(alloc: Global, table: &Table, first: &Reached) -> Result<Plan, WalkErr>
    requires { IsReached first.now }
    ensures { IsAnswer (plan_first (rows_of table.now) first.now) result }
{
    let swapped = swap_of(alloc, table, first)?;
    Ok(Plan::Swaps(swapped, None))
}

/// Both paths of a call.
fn plan_both(
    alloc: Global,
    table: &Table,
    request: &Request,
    old: &Reached,
    new: &Reached,
) -> Result<Plan, WalkErr>
    requires old { IsReached old.now }
    requires new { IsReached new.now }
    ensures { IsAnswer (plan_both (rows_of table.now) request.now old.now new.now) result }
{
    let first = swap_of(alloc, table, old)?;
    let second = swap_of(alloc, table, new)?;
    let busy = both_are_busy(table, request, &old.canon, &new.canon)?;
    if busy {
        return Err(WalkErr::Err(Errno::EBUSY));
    }
    Ok(Plan::Swaps(first, Some(second)))
}

/// What a path is swapped for.
fn swap_of(alloc: Global, table: &Table, reached: &Reached) -> Result<Swapped, WalkErr>
    requires { IsReached reached.now }
    ensures { IsAnswer (swap_of (rows_of table.now) reached.now) result }
{
    let text = text_for(alloc, table, reached.purpose, &reached.canon)?;
    Ok(Swapped {
        register: reached.register,
        text,
    })
}
