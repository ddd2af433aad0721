//! What one option asks for.
ghost use Rattle.std.specs.Prelude.{◌≡◌};
ghost use Rattle.pr_words.specs.Answers.{IsRead};
ghost use Rattle.pr_words.specs.Reading.{setting_of, or_twice};

use crate::fault::{OptionFault, Why};
use crate::kind::Kind;
use crate::options::Slots;
use crate::schedule::schedule_of;
use crate::value::{binding_of, case_of, ids_of, is_variable, turns_of};
use pr_base::Bytes;
use std::alloc::Global;

/// What one option asks for.
#[derive(Drop)]
pub(crate) enum Setting {
    Root(Bytes),
    /// A host part and a location, and whether a last link is kept there.
    Bind(Bytes, Bytes, bool),
    Directory(Bytes),
    RootId,
    ChangeId(u32, u32),
    Variable(Bytes),
    Turns(u32),
    Schedule(Slots),
    Loose(Slots),
    Native,
    Calm,
    Case(u32),
}

fn bind_setting(alloc: Global, value: &[u8]) -> Result<Setting, OptionFault>
    ensures { IsRead (setting_of Kind.Bind value.now) result }
{
    let Some((host, guest, keep)) = binding_of(value) else {
        return Err(OptionFault::Broken(Why::BadBind));
    };
    let host = Bytes::copy(alloc, host)?;
    let guest = Bytes::copy(alloc, guest)?;
    Ok(Setting::Bind(host, guest, keep))
}

fn ids_setting(value: &[u8]) -> Result<Setting, OptionFault>
    ensures { IsRead (setting_of Kind.ChangeId value.now) result }
{
    match ids_of(value) {
        Some((uid, gid)) => Ok(Setting::ChangeId(uid, gid)),
        None => Err(OptionFault::Broken(Why::BadId)),
    }
}

fn variable_setting(alloc: Global, value: &[u8]) -> Result<Setting, OptionFault>
    ensures { IsRead (setting_of Kind.Variable value.now) result }
{
    if !is_variable(value) {
        return Err(OptionFault::Broken(Why::BadEnv));
    }
    let text = Bytes::copy(alloc, value)?;
    Ok(Setting::Variable(text))
}

fn turns_setting(value: &[u8]) -> Result<Setting, OptionFault>
    ensures { IsRead (setting_of Kind.Turns value.now) result }
{
    match turns_of(value) {
        Some(turns) => Ok(Setting::Turns(turns)),
        None => Err(OptionFault::Broken(Why::BadNumber)),
    }
}

fn schedule_setting(alloc: Global, value: &[u8]) -> Result<Setting, OptionFault>
    ensures { IsRead (setting_of Kind.Schedule value.now) result }
{
    match schedule_of(alloc, value)? {
        Some(slots) => Ok(Setting::Schedule(slots)),
        None => Err(OptionFault::Broken(Why::BadSchedule)),
    }
}

fn loose_setting(alloc: Global, value: &[u8]) -> Result<Setting, OptionFault>
    ensures { IsRead (setting_of Kind.Loose value.now) result }
{
    match schedule_of(alloc, value)? {
        Some(slots) => Ok(Setting::Loose(slots)),
        None => Err(OptionFault::Broken(Why::BadSchedule)),
    }
}

fn case_setting(value: &[u8]) -> Result<Setting, OptionFault>
    ensures { IsRead (setting_of Kind.Case value.now) result }
{
    match case_of(value) {
        Some(number) => Ok(Setting::Case(number)),
        None => Err(OptionFault::Broken(Why::BadNumber)),
    }
}

fn root_setting(alloc: Global, value: &[u8]) -> Result<Setting, OptionFault>
    ensures { IsRead (setting_of Kind.Root value.now) result }
{
    let path = Bytes::copy(alloc, value)?;
    Ok(Setting::Root(path))
}

fn directory_setting(alloc: Global, value: &[u8]) -> Result<Setting, OptionFault>
    ensures { IsRead (setting_of Kind.Directory value.now) result }
{
    let path = Bytes::copy(alloc, value)?;
    Ok(Setting::Directory(path))
}

impl Setting {
    /// What an option of this kind with this value asks for.
    fn of(alloc: Global, kind: Kind, value: &[u8]) -> Result<Setting, OptionFault>
        ensures { IsRead (setting_of kind value.now) result }
    {
        match kind {
            Kind::Root => root_setting(alloc, value),
            Kind::Bind => bind_setting(alloc, value),
            Kind::Directory => directory_setting(alloc, value),
            Kind::RootId => Ok(Setting::RootId),
            Kind::ChangeId => ids_setting(value),
            Kind::Variable => variable_setting(alloc, value),
            Kind::Turns => turns_setting(value),
            Kind::Schedule => schedule_setting(alloc, value),
            Kind::Loose => loose_setting(alloc, value),
            Kind::Native => Ok(Setting::Native),
            Kind::Calm => Ok(Setting::Calm),
            Kind::Case => case_setting(value),
        }
    }

    /// What an option of this kind with this value asks for. One that was given before and may stand once (`is_again`) breaks `Twice`, or a
    /// smaller rule that its value breaks.
    pub(crate) fn read(
        alloc: Global,
        kind: Kind,
        value: &[u8],
        is_again: bool,
    ) -> Result<Setting, OptionFault>
        ensures { IsRead (or_twice is_again (setting_of kind value.now)) result }
    {
        let read = Setting::of(alloc, kind, value);
        if !is_again {
            return read;
        }
        match read {
            Ok(_setting) => Err(OptionFault::Broken(Why::Twice)),
            Err(OptionFault::Broken(why)) => Err(OptionFault::Broken(why.or_smaller(Why::Twice))),
            Err(OptionFault::NoMemory) => Err(OptionFault::NoMemory),
        }
    }
}
