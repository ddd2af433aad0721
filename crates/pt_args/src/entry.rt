//! The edit of a call at its entry.
ghost use Rattle.std.specs.Prelude.{◌≡◌, ◌+◌, ◌≤◌, false, [], ◌∷◌, ◌++◌, IsTrue, IfOk, None, OnOk, length};
ghost use Rattle.pt_canon.specs.Canon.{texts_by};
ghost use Rattle.pt_args.specs.Edits.{both, edit_by, edit_of, first_of, is_long, is_second_long, put_edit, shelve};
ghost use Rattle.pt_args.specs.Plans.{plan_second, plan_unmet, second_unmet};
ghost use Rattle.pt_args.specs.Shelving.{address_below, with_item, with_zero};
ghost use Rattle.pt_args.specs.Walks.{IsReached};
ghost use Rattle.pt_canon.specs.Leaving.{OnlyPeeks};
ghost use Rattle.pt_canon.specs.Remembering.{Agrees, WalksOn};

use crate::caller::Caller;
use crate::edit::{Edit, Swaps};
use crate::plan::{Plan, Swapped};
use crate::purpose::opens;
use crate::reached::Reached;
use crate::shelf::Shelf;
use kr_calls::{Request, path_of};
use pt_canon::below::pr_base::limits::PATH_MAX;
use pt_canon::below::pr_base::{Errno, NoMemory, Peeks};
use pt_canon::below::pt_bind::Tags;
use pt_canon::{WalkErr, Walker};
use std::alloc::Global;

/// How many bytes a text has at most, without its zero.
const LONGEST: usize = PATH_MAX - 1;

/// What becomes of a process's call at its entry. Each of its paths is a guest path: it is walked over guest texts and swapped
/// for a host path that leads the plain kernel to the same object, or to the same name of the same directory. A path that
/// the plain kernel refuses by itself stays as it is. An error of a walk cancels the call; so does EISDIR of a file to be made
/// with a slash behind its name, EBUSY of a mount point that would be removed or renamed, ENAMETOOLONG of a host path of more than
/// 4,095 bytes, and EFAULT where the shelf can't be used. The host paths are put on the shelf, the 65,536 bytes below `sp`;
/// `shelf` tells whether these may be read and written. What the walker remembers must agree with what the kernel tells; it may remember other
/// answers then, also behind a refusal, and agrees still.
pub fn rewrite<K: Peeks>(
    alloc: Global,
    kernel: &mut K,
    walker: &mut Walker,
    tags: &Tags,
    pid: u32,
    sp: u64,
    shelf: bool,
    request: &Request,
) -> Result<Edit, NoMemory>
    requires shelf { IsTrue shelf → 65536 ≤ sp }
    requires agrees { Agrees walker.old (K.peeked kernel.old) }
    ensures edit { IfOk result (λ edit. edit ≡ edit_of (texts_by walker.old.table (K.peeked kernel.old) tags.now) pid sp shelf request.now) }
    ensures walker { WalksOn (K.peeked kernel.old) walker.old walker.new }
    ensures noted { OnOk result (K.unmet kernel.new ≡ plan_unmet (texts_by walker.old.table (K.peeked kernel.old) tags.now) pid request.now (K.unmet kernel.old)) }
    ensures kernel { OnlyPeeks K.peeked K.kept kernel.old kernel.new }
{
    let Rewritten { edit, first: _ } = rewrite_along(
        alloc, kernel, walker, tags, pid, sp, shelf, request,
    )?;
    Ok(edit)
}

/// What becomes of a call, and where its first path led that was walked for it: `None` where there is none, where the plain kernel
/// is to see it as it is, and where its walk failed.
#[derive(Drop)]
pub struct Rewritten {
    pub edit: Edit,
    pub first: Option<Reached>,
}

/// What becomes of a process's call at its entry (`rewrite`), and where its first path led.
pub fn rewrite_along<K: Peeks>(
    alloc: Global,
    kernel: &mut K,
    walker: &mut Walker,
    tags: &Tags,
    pid: u32,
    sp: u64,
    shelf: bool,
    request: &Request,
) -> Result<Rewritten, NoMemory>
    requires shelf { IsTrue shelf → 65536 ≤ sp }
    requires agrees { Agrees walker.old (K.peeked kernel.old) }
    ensures edit { IfOk result (λ r. r.edit ≡ edit_of (texts_by walker.old.table (K.peeked kernel.old) tags.now) pid sp shelf request.now) }
    ensures first { IfOk result (λ r. r.first ≡ first_of (texts_by walker.old.table (K.peeked kernel.old) tags.now) pid request.now) }
    ensures walker { WalksOn (K.peeked kernel.old) walker.old walker.new }
    ensures noted { OnOk result (K.unmet kernel.new ≡ plan_unmet (texts_by walker.old.table (K.peeked kernel.old) tags.now) pid request.now (K.unmet kernel.old)) }
    ensures kernel { OnlyPeeks K.peeked K.kept kernel.old kernel.new }
{
    let entry = Entry {
        caller: Caller { alloc, tags, pid },
        sp,
        shelf,
        request,
    };
    entry.along(kernel, walker)
}

/// A call at its entry: its caller, the stack pointer, and whether the shelf below it may be read and written.
#[derive(Clone, Copy)]
struct Entry<'a> {
    caller: Caller<'a>,
    sp: u64,
    shelf: bool,
    request: &'a Request,
}

impl<'a> Entry<'a> {
    /// What becomes of it (`rewrite`), and where its first path led.
    fn along<K: Peeks>(&self, kernel: &mut K, walker: &mut Walker) -> Result<Rewritten, NoMemory>
        requires shelf { IsTrue self.now.shelf → 65536 ≤ self.now.sp }
        requires agrees { Agrees walker.old (K.peeked kernel.old) }
        ensures edit { let texts = texts_by walker.old.table (K.peeked kernel.old) self.now.caller.tags.now in
            IfOk result (λ r. r.edit ≡ edit_of texts self.now.caller.pid self.now.sp self.now.shelf self.now.request.now) }
        ensures first { let texts = texts_by walker.old.table (K.peeked kernel.old) self.now.caller.tags.now in
            IfOk result (λ r. r.first ≡ first_of texts self.now.caller.pid self.now.request.now) }
        ensures walker { WalksOn (K.peeked kernel.old) walker.old walker.new }
        ensures noted { let texts = texts_by walker.old.table (K.peeked kernel.old) self.now.caller.tags.now in
            OnOk result (K.unmet kernel.new ≡ plan_unmet texts self.now.caller.pid self.now.request.now (K.unmet kernel.old)) }
        ensures kernel { OnlyPeeks K.peeked K.kept kernel.old kernel.new }
    {
        let Some(path) = path_of(self.request, 0) else {
            return Ok(only(Edit::Pass));
        };
        let opening = opens(self.request);
        match self.caller.walk_path(kernel, walker, opening, path) {
            Ok(Some(first)) => {
                let edit = self.edit_behind(kernel, walker, &first)?;
                Ok(Rewritten {
                    edit,
                    first: Some(first),
                })
            }
            Ok(None) => Ok(only(Edit::Pass)),
            Err(WalkErr::Err(errno)) => Ok(only(Edit::Cancel(errno))),
            Err(WalkErr::NoMemory) => Err(NoMemory),
        }
    }

    /// What becomes of it, once its first path was walked.
    fn edit_behind<K: Peeks>(
        &self,
        kernel: &mut K,
        walker: &mut Walker,
        first: &Reached,
    ) -> Result<Edit, NoMemory>
        requires shelf { IsTrue self.now.shelf → 65536 ≤ self.now.sp }
        requires first { IsReached first.now }
        requires agrees { Agrees walker.old (K.peeked kernel.old) }
        ensures edit { let texts = texts_by walker.old.table (K.peeked kernel.old) self.now.caller.tags.now in
            IfOk result (λ edit. edit ≡ edit_by self.now.sp self.now.shelf (plan_second texts self.now.caller.pid self.now.request.now first.now)) }
        ensures walker { WalksOn (K.peeked kernel.old) walker.old walker.new }
        ensures noted { let texts = texts_by walker.old.table (K.peeked kernel.old) self.now.caller.tags.now in
            OnOk result (K.unmet kernel.new ≡ second_unmet texts self.now.caller.pid self.now.request.now (K.unmet kernel.old)) }
        ensures kernel { OnlyPeeks K.peeked K.kept kernel.old kernel.new }
    {
        match self.caller.plan_second(kernel, walker, self.request, first) {
            Ok(Plan::Passes) => Ok(Edit::Pass),
            Ok(Plan::Swaps(first, second)) => self.shelve(first, second),
            Err(WalkErr::Err(errno)) => Ok(Edit::Cancel(errno)),
            Err(WalkErr::NoMemory) => Err(NoMemory),
        }
    }

    /// Puts the texts on the shelf, if they aren't too long and the shelf can be used.
    fn shelve(&self, first: Swapped, second: Option<Swapped>) -> Result<Edit, NoMemory>
        requires { IsTrue self.now.shelf → 65536 ≤ self.now.sp }
        ensures { IfOk result (λ edit. edit ≡ shelve self.now.sp self.now.shelf first second) }
    {
        if is_long(&first) || is_second_long(&second) {
            return Ok(Edit::Cancel(Errno::ENAMETOOLONG));
        }
        if !self.shelf {
            return Ok(Edit::Cancel(Errno::EFAULT));
        }
        put_both(self.caller.alloc, self.sp, first, second)
    }
}

/// An edit of a call whose first path led nowhere.
fn only(edit: Edit) -> Rewritten
    ensures edit { result.edit ≡ edit }
    ensures first { result.first ≡ None }
{
    Rewritten { edit, first: None }
}

/// Whether a text is too long for a path.
fn is_long(swapped: &Swapped) -> bool
    ensures { result ≡ is_long swapped.now }
{
    swapped.text.len() > LONGEST
}

/// Whether there is a second text, and it is too long for a path.
fn is_second_long(second: &Option<Swapped>) -> bool
    ensures { result ≡ is_second_long second.now }
{
    match second {
        Some(swapped) => is_long(swapped),
        None => false,
    }
}

/// Puts the texts on the shelf.
fn put_both(
    alloc: Global,
    sp: u64,
    first: Swapped,
    second: Option<Swapped>,
) -> Result<Edit, NoMemory>
    requires room { 65536 ≤ sp }
    requires first { is_long first ≡ false }
    requires second { is_second_long second ≡ false }
    ensures { IfOk result (λ edit. edit ≡ put_edit sp (both first second)) }
{
    let mut shelf = Shelf::below(alloc, sp);
    let mut regs = Swaps::new(alloc);
    put(&mut shelf, &mut regs, first)?;
    let Some(second) = second else {
        let pokes = shelf.into_items();
        return Ok(Edit::Swap { regs, pokes });
    };
    put(&mut shelf, &mut regs, second)?;
    let pokes = shelf.into_items();
    Ok(Edit::Swap { regs, pokes })
}

/// Puts a text on the shelf and its address into its register.
fn put(shelf: &mut Shelf, regs: &mut Swaps, swapped: Swapped) -> Result<(), NoMemory>
    requires { length swapped.text + 1 ≤ shelf.old.top }
    ensures shelf { OnOk result (shelf.new ≡ with_item shelf.old (with_zero swapped.text)) }
    ensures regs { OnOk result (regs.new ≡ regs.old ++ (swapped.register, address_below shelf.old.top (length (with_zero swapped.text))) ∷ []) }
{
    let Swapped { register, text } = swapped;
    let at = shelf.put_text(text)?;
    regs.push(register, at)
}
