//! What is read and written of the memory of a process that stands at a stop.
ghost use Rattle.std.specs.Prelude.{◌≡◌, ◌≤◌, ◌&&◌, IfOk, IsTrue, OnOk, length};
ghost use Rattle.pt_ident.specs.rv_mem.Pages.{allows_all};
ghost use Rattle.kr_stops.specs.Editing.{after_poke, memory_at};
ghost use Rattle.pt_faker.specs.Stopping.{OnlyEdits};
ghost use Rattle.pt_ident.specs.Identity.{Identity, TakesGroups, TellsGroups, most_groups, numbers_of, on_memory, refusal, tell_numbers};
ghost use Rattle.pt_faker.specs.Carrying.{CarriesOut, on_its_memory};
ghost use Rattle.pt_faker.specs.Faking.{show_owner};

use elf_load::below::pr_base::{Errno, NoMemory};
use kr_stops::Tracee;
use pt_ident::below::kr_inode::User;
use pt_ident::below::rv_mem::Use;
use pt_ident::{Identities, Ids, fix_stat, group_bytes, groups_in};
use std::alloc::Global;

/// Writes bytes, all of which may be written. After want of memory the process may only be dropped.
pub fn write<T: Tracee>(t: &mut T, at: u64, bytes: &[u8]) -> Result<(), NoMemory>
    requires may { IsTrue (allows_all (memory_at (T.stopped t.old)).pages at (length bytes.now) Use.Write) }
    ensures after { OnOk result (T.stopped t.new ≡ after_poke at bytes.now (T.stopped t.old)) }
    ensures edits { OnlyEdits T.stopped T.around t.old t.new }
{
    // For the proof alone: the process lives.
    let _pid = t.pid();
    match t.poke(at, bytes) {
        Ok(()) => Ok(()),
        Err(_) => Err(NoMemory),
    }
}

/// Shows the host user as another in the structure `stat` at an address, whose bytes a call has just written, and what is remembered of its
/// file. After want of memory the process may only be dropped.
pub fn show_owner<T: Tracee>(
    t: &mut T,
    user: User,
    identities: &Identities,
    at: u64,
) -> Result<(), NoMemory>
    ensures shows { OnOk result (T.stopped t.new ≡ on_its_memory (show_owner user identities.now at) (T.stopped t.old)) }
    ensures edits { OnlyEdits T.stopped T.around t.old t.new }
{
    // For the proof alone: the process lives.
    let _pid = t.pid();
    let mut bytes = [0; 128];
    match t.peek(at, &mut bytes, Use::Write) {
        Ok(()) => {}
        Err(_) => return Ok(()),
    }
    fix_stat(
        &mut bytes,
        user,
        identities.start(),
        identities.shown_owners(),
    );
    write(t, at, &bytes)
}

/// The negated number of an error.
pub fn refused(errno: Errno) -> i64
    ensures { result ≡ refusal errno }
{
    -i64::from(errno.number())
}

/// Writes groups to an address, as getgroups(2) does, and answers their number; EFAULT where they can't be written. After want of
/// memory the process may only be dropped.
pub fn tell_groups<T: Tracee>(
    alloc: Global,
    t: &mut T,
    groups: &[u32],
    at: u64,
) -> Result<i64, NoMemory>
    requires few { length groups.now ≤ most_groups }
    ensures tells { IfOk result (λ answer. (i : Identity) → i.groups ≡ groups.now → CarriesOut (on_memory i (TellsGroups at)) (record { answer = answer; identity = i }) (T.stopped t.old) (T.stopped t.new)) }
    ensures edits { OnlyEdits T.stopped T.around t.old t.new }
{
    // For the proof alone: the process lives.
    let _pid = t.pid();
    let bytes = group_bytes(alloc, groups)?;
    if !t.can(at, bytes.len() as u64, Use::Write) {
        return Ok(refused(Errno::EFAULT));
    }
    write(t, at, bytes.as_slice())?;
    Ok(groups.len() as i64)
}

fn all(first: bool, second: bool, third: bool) -> bool
    ensures { result ≡ (first && second && third) }
{
    first && second && third
}

/// Writes three numbers, each to its address, as getresuid(2) and getresgid(2) do, and answers 0; EFAULT where one of them can't be
/// written, and then none is. After want of memory the process may only be dropped.
pub fn tell_numbers<T: Tracee>(
    t: &mut T,
    numbers: [u32; 3],
    real: u64,
    effective: u64,
    saved: u64,
) -> Result<i64, NoMemory>
    ensures tells { IfOk result (λ answer. (i : Identity) → CarriesOut (tell_numbers i (numbers_of numbers) real effective saved) (record { answer = answer; identity = i }) (T.stopped t.old) (T.stopped t.new)) }
    ensures edits { OnlyEdits T.stopped T.around t.old t.new }
{
    // For the proof alone: the process lives.
    let _pid = t.pid();
    let first = t.can(real, 4, Use::Write);
    let second = t.can(effective, 4, Use::Write);
    let third = t.can(saved, 4, Use::Write);
    if !all(first, second, third) {
        return Ok(refused(Errno::EFAULT));
    }
    let [real_number, effective_number, saved_number] = numbers;
    write(t, real, &real_number.to_le_bytes())?;
    write(t, effective, &effective_number.to_le_bytes())?;
    write(t, saved, &saved_number.to_le_bytes())?;
    Ok(0)
}

/// Reads as many groups from an address, as setgroups(2) does, keeps them, and answers 0; EFAULT where they can't be read, and the
/// old ones are kept. After want of memory the process may only be dropped.
pub fn take_groups<T: Tracee>(
    alloc: Global,
    t: &mut T,
    ids: &mut Ids,
    count: u32,
    at: u64,
) -> Result<i64, NoMemory>
    requires few { count ≤ most_groups }
    ensures tells { IfOk result (λ answer. CarriesOut (on_memory ids.old (TakesGroups count at)) (record { answer = answer; identity = ids.new }) (T.stopped t.old) (T.stopped t.new)) }
    ensures edits { OnlyEdits T.stopped T.around t.old t.new }
{
    // For the proof alone: the process lives.
    let _pid = t.pid();
    let mut bytes = vec![in alloc; 0; 4 * count as usize]?;
    match t.peek(at, bytes.as_mut_slice(), Use::Read) {
        Ok(()) => {}
        Err(_) => return Ok(refused(Errno::EFAULT)),
    }
    let groups = groups_in(alloc, bytes.as_slice())?;
    ids.set_groups(groups);
    Ok(0)
}
