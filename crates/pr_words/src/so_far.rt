//! What the options read so far ask for.
ghost use Rattle.std.specs.Prelude.{◌≡◌, ◌+◌, ◌<◌, ◌≤◌, ◌^◌, [], ◌∷◌, length, map, IfOk, OnOk, codes, unwrap_or};
ghost use Rattle.std.specs.String.{string_bytes};
ghost use Rattle.pr_words.specs.Answers.{IsAnswer};
ghost use Rattle.pr_words.specs.Reading.{is_calm, is_loose, is_beside_case};
ghost use Rattle.pr_words.specs.Steps.{so_far_of, noted, added, is_again_in, step_of, IsStep, case_alone_in, calm_alone_in, loose_alone_in, options_in, finished};

use crate::fault::{OptionFault, Why, WordsFault};
use crate::front::Front;
use crate::kind::Kind;
use crate::options::{Binds, Options, Slots};
use crate::setting::Setting;
use crate::variables::Variables;
use pr_base::{Bytes, NoMemory, Texts};
use std::alloc::Global;

/// The turns of a run where no option says it.
const UNASKED_TURNS: u32 = 1_000_000;

/// What the options read so far ask for, and the words of those that may not stand alone. What an error
/// leaves isn't read again.
#[derive(Drop)]
pub(crate) struct SoFar {
    pub(crate) root: Option<Bytes>,
    pub(crate) binds: Binds,
    pub(crate) directory: Option<Bytes>,
    pub(crate) ids: Option<(u32, u32)>,
    /// The option `-i` was given.
    pub(crate) is_changed: bool,
    pub(crate) variables: Variables,
    pub(crate) turns: Option<u32>,
    pub(crate) schedule: Option<Slots>,
    pub(crate) loose: Option<Slots>,
    pub(crate) native: bool,
    pub(crate) calm: bool,
    pub(crate) case: Option<u32>,
    /// The first word that is `--calm`.
    pub(crate) first_calm: Option<u32>,
    /// The first word that is `--loose`.
    pub(crate) first_loose: Option<u32>,
    /// The first option that may not stand beside `--case`.
    pub(crate) first_other: Option<u32>,
}

fn is_calm(setting: &Setting) -> bool
    ensures { result ≡ is_calm setting.now }
{
    matches!(setting, Setting::Calm)
}

fn is_loose(setting: &Setting) -> bool
    ensures { result ≡ is_loose setting.now }
{
    matches!(setting, Setting::Loose(_))
}

/// Whether it may stand beside `--case`.
fn is_beside_case(setting: &Setting) -> bool
    ensures { result ≡ is_beside_case setting.now }
{
    matches!(
        setting,
        Setting::Turns(_) | Setting::Schedule(_) | Setting::Case(_)
    )
}

/// The path of an option, `/` where it isn't given.
fn or_slash(alloc: Global, path: Option<Bytes>) -> Result<Bytes, NoMemory>
    ensures { IfOk result (λ path_or. path_or ≡ unwrap_or path (codes "/")) }
{
    match path {
        Some(path) => Ok(path),
        None => Bytes::copy(alloc, b"/"),
    }
}

/// The slots that are given, none where there are none.
fn or_none(alloc: Global, given: Option<Slots>) -> Slots
    ensures { result ≡ unwrap_or given [] }
{
    match given {
        Some(slots) => slots,
        None => Slots::new(alloc),
    }
}

/// Copies of the words.
fn texts_of(alloc: Global, words: &[String]) -> Result<Texts, NoMemory>
    ensures { IfOk result (λ texts. texts ≡ map string_bytes words.now) }
{
    let mut texts = Texts::new(alloc);
    for word in words {
        let text = Bytes::copy(alloc, word.as_bytes())?;
        texts.push(text)?;
    }
    Ok(texts)
}

impl SoFar {
    pub(crate) fn new(alloc: Global) -> SoFar
        ensures { result ≡ so_far_of [] }
    {
        SoFar {
            root: None,
            binds: Binds::new(alloc),
            directory: None,
            ids: None,
            is_changed: false,
            variables: Variables::new(alloc),
            turns: None,
            schedule: None,
            loose: None,
            native: false,
            calm: false,
            case: None,
            first_calm: None,
            first_loose: None,
            first_other: None,
        }
    }

    /// Notes an option's place where it is the first of those that may not stand alone, or beside some, or not
    /// beside `--case`.
    fn note(&mut self, place: u32, setting: &Setting)
        ensures { self.new ≡ noted place setting.now self.old }
    {
        if self.first_calm.is_none() && is_calm(setting) {
            self.first_calm = Some(place);
        }
        if self.first_loose.is_none() && is_loose(setting) {
            self.first_loose = Some(place);
        }
        if self.first_other.is_none() && !is_beside_case(setting) {
            self.first_other = Some(place);
        }
    }

    /// Adds what the option at a place asks for.
    fn add(&mut self, place: u32, setting: Setting) -> Result<(), NoMemory>
        requires { length self.old.binds + 1 < 2 ^ 32 }
        ensures value { OnOk result (self.new ≡ added place setting self.old) }
        ensures room { OnOk result (length self.new.binds ≤ length self.old.binds + 1) }
    {
        self.note(place, &setting);
        match setting {
            Setting::Root(path) => self.root = Some(path),
            Setting::Bind(host, guest, keep) => self.binds.add(host, guest, keep)?,
            Setting::Directory(path) => self.directory = Some(path),
            Setting::RootId => self.ids = Some((0, 0)),
            Setting::ChangeId(uid, gid) => {
                self.ids = Some((uid, gid));
                self.is_changed = true;
            }
            Setting::Variable(text) => self.variables.put(text)?,
            Setting::Turns(turns) => self.turns = Some(turns),
            Setting::Schedule(slots) => self.schedule = Some(slots),
            Setting::Loose(slots) => self.loose = Some(slots),
            Setting::Native => self.native = true,
            Setting::Calm => self.calm = true,
            Setting::Case(number) => self.case = Some(number),
        }
        Ok(())
    }

    /// Whether an option of this kind may not be given any more.
    fn is_again(&self, kind: Kind) -> bool
        ensures { result ≡ is_again_in kind self.now }
    {
        match kind {
            Kind::Root => self.root.is_some(),
            Kind::Directory => self.directory.is_some(),
            Kind::RootId => self.is_changed,
            Kind::ChangeId => self.ids.is_some(),
            Kind::Turns => self.turns.is_some(),
            Kind::Schedule => self.schedule.is_some(),
            Kind::Loose => self.loose.is_some(),
            Kind::Case => self.case.is_some(),
            Kind::Bind | Kind::Variable | Kind::Native | Kind::Calm => false,
        }
    }

    /// Reads the option that a word at a place gives before others, and answers how many words it takes;
    /// none where the command begins.
    pub(crate) fn read(
        &mut self,
        alloc: Global,
        place: u32,
        word: &[u8],
        words: &[String],
    ) -> Result<usize, OptionFault>
        requires { length self.old.binds + 1 < 2 ^ 32 }
        ensures value { IsStep (step_of place word.now (map string_bytes words.now) self.old) result self.new }
        ensures room { OnOk result (length self.new.binds ≤ length self.old.binds + 1) }
        ensures within { IfOk result (λ taken. taken ≤ length words.now + 1) }
    {
        let Some(front) = Front::of(word, words)? else {
            return Ok(0);
        };
        let is_again = self.is_again(front.kind);
        let setting = Setting::read(alloc, front.kind, front.value, is_again)?;
        self.add(place, setting)?;
        Ok(front.taken)
    }
}

impl SoFar {
    /// The first word that may not stand beside `--case`, where that is given. The command begins at
    /// word `n`.
    fn case_alone(&self, n: usize, command: &[String]) -> Option<u32>
        requires { n + length command.now ≤ 2 ^ 32 }
        ensures { result ≡ case_alone_in self.now n (map string_bytes command.now) }
    {
        if self.case.is_none() {
            None
        } else if self.first_other.is_some() {
            self.first_other
        } else if command.is_empty() {
            None
        } else {
            Some(n as u32)
        }
    }

    /// The first `--calm`, where `--native` isn't given.
    fn calm_alone(&self) -> Option<u32>
        ensures { result ≡ calm_alone_in self.now }
    {
        if self.native { None } else { self.first_calm }
    }

    /// The first `--loose`, where an option is given beside which it may not stand.
    fn loose_alone(&self) -> Option<u32>
        ensures { result ≡ loose_alone_in self.now }
    {
        if self.native || self.schedule.is_some() || self.ids.is_some() {
            self.first_loose
        } else {
            None
        }
    }

    fn into_options(self, alloc: Global, command: &[String]) -> Result<Options, NoMemory>
        ensures { IfOk result (λ options. options ≡ options_in self (map string_bytes command.now)) }
    {
        let root = or_slash(alloc, self.root)?;
        let cwd = or_slash(alloc, self.directory)?;
        let command = texts_of(alloc, command)?;
        Ok(Options {
            root,
            binds: self.binds,
            cwd,
            ids: self.ids,
            env: self.variables.into_texts(),
            turns: self.turns.unwrap_or(UNASKED_TURNS),
            schedule: or_none(alloc, self.schedule),
            loose: or_none(alloc, self.loose),
            native: self.native,
            calm: self.calm,
            case: self.case,
            command,
        })
    }

    /// What the options ask for, where those that stand together may do so. The command begins at word
    /// `n`.
    pub(crate) fn finish(
        self,
        alloc: Global,
        n: usize,
        command: &[String],
    ) -> Result<Options, WordsFault>
        requires { n + length command.now ≤ 2 ^ 32 }
        ensures { IsAnswer (finished self n (map string_bytes command.now)) result }
    {
        if let Some(word) = self.case_alone(n, command) {
            return Err(WordsFault::Usage {
                word,
                why: Why::CaseAlone,
            });
        }
        if let Some(word) = self.calm_alone() {
            return Err(WordsFault::Usage {
                word,
                why: Why::CalmAlone,
            });
        }
        if let Some(word) = self.loose_alone() {
            return Err(WordsFault::Usage {
                word,
                why: Why::LooseAlone,
            });
        }
        let options = self.into_options(alloc, command)?;
        Ok(options)
    }
}
