//! Words and what they are read as, worked out by hand from the table of options. In a row a `|` parts two
//! words.

use pr_words::{Options, Slot, Why, WordsFault, read};
use rv_cpu::below::pr_base::{Bind, NoMemory, Texts};
use std::alloc::Global;
use std::test::Fail;

/// One table of words that break a rule: the words, and the first such word with its rule.
const REFUSED: &[(&str, &str)] = &[
    ("-x", "1 Unknown"),
    ("-", "1 Unknown"),
    ("--", "1 Unknown"),
    ("-r=/", "1 Unknown"),
    ("-r/g", "1 Unknown"),
    ("-0x", "1 Unknown"),
    ("--Native", "1 Unknown"),
    ("--native=", "1 Unknown"),
    ("--calm=1", "1 Unknown"),
    ("--root-id=", "1 Unknown"),
    ("--root=/", "1 Unknown"),
    ("--tight=0*1", "1 Unknown"),
    ("-r", "1 NoValue"),
    ("-b", "1 NoValue"),
    ("-m", "1 NoValue"),
    ("-w", "1 NoValue"),
    ("-i", "1 NoValue"),
    ("--rootfs", "1 NoValue"),
    ("--bind|x", "1 NoValue"),
    ("--mount", "1 NoValue"),
    ("--pwd", "1 NoValue"),
    ("--cwd", "1 NoValue"),
    ("--change-id", "1 NoValue"),
    ("--env", "1 NoValue"),
    ("--turns", "1 NoValue"),
    ("--schedule", "1 NoValue"),
    ("--loose", "1 NoValue"),
    ("--loose|0*1", "1 NoValue"),
    ("--case", "1 NoValue"),
    ("--turns=0", "1 BadNumber"),
    ("--turns=", "1 BadNumber"),
    ("--turns=10000001", "1 BadNumber"),
    ("--turns=000000001", "1 BadNumber"),
    ("--turns=+1", "1 BadNumber"),
    ("--turns=-1", "1 BadNumber"),
    ("--turns= 1", "1 BadNumber"),
    ("--turns=1 ", "1 BadNumber"),
    ("--turns=0x1", "1 BadNumber"),
    ("--turns=\u{663}", "1 BadNumber"),
    ("--case=", "1 BadNumber"),
    ("--case=65536", "1 BadNumber"),
    ("--schedule=", "1 BadSchedule"),
    ("--schedule=1", "1 BadSchedule"),
    ("--schedule=256*1", "1 BadSchedule"),
    ("--schedule=0*0", "1 BadSchedule"),
    ("--schedule=0*100001", "1 BadSchedule"),
    ("--schedule=0*1,", "1 BadSchedule"),
    ("--schedule=,0*1", "1 BadSchedule"),
    ("--schedule=0*1,,0*1", "1 BadSchedule"),
    ("--schedule=0*1*2", "1 BadSchedule"),
    ("--schedule=000000000*1", "1 BadSchedule"),
    ("--loose=", "1 BadSchedule"),
    ("--loose=1", "1 BadSchedule"),
    ("--loose=1|/p", "1 BadSchedule"),
    ("--loose=256*1", "1 BadSchedule"),
    ("--loose=0*0", "1 BadSchedule"),
    ("--loose=0*100001", "1 BadSchedule"),
    ("--loose=0*1,", "1 BadSchedule"),
    ("--loose=0*1,,0*1", "1 BadSchedule"),
    ("--loose=000000000*1", "1 BadSchedule"),
    ("-b|", "1 BadBind"),
    ("-b|:/x", "1 BadBind"),
    ("-b|x:", "1 BadBind"),
    ("-b|!", "1 BadBind"),
    ("-b|x:!", "1 BadBind"),
    ("-b|:!", "1 BadBind"),
    ("--bind=", "1 BadBind"),
    ("--mount=:", "1 BadBind"),
    ("-r|/|-b|:x", "3 BadBind"),
    ("--env=", "1 BadEnv"),
    ("--env=A", "1 BadEnv"),
    ("--env==v", "1 BadEnv"),
    ("-w|/|-w|/", "3 Twice"),
    ("-r|/|--rootfs=/", "3 Twice"),
    ("--pwd=/|--cwd=/", "2 Twice"),
    ("--turns=1|--turns=1", "2 Twice"),
    ("--schedule=0*1|--schedule=0*1", "2 Twice"),
    ("--loose=0*1|--loose=0*1", "2 Twice"),
    ("--case=1|--case=1", "2 Twice"),
    ("-i|7:8|-0", "3 Twice"),
    ("-0|-i|1:2", "2 Twice"),
    ("-i|1:2|--change-id=1:2", "3 Twice"),
    ("-i|7", "1 BadId"),
    ("-i|", "1 BadId"),
    ("-i|:", "1 BadId"),
    ("-i|1:", "1 BadId"),
    ("-i|1:2:3", "1 BadId"),
    ("-i| 1:2", "1 BadId"),
    ("-i|4294967295:0", "1 BadId"),
    ("-i|0:4294967295", "1 BadId"),
    ("-i|00000000007:8", "1 BadId"),
    ("--change-id=", "1 BadId"),
];

/// Where several rules are broken, by one word or by several.
const FIRST_FAULTS: &[(&str, &str)] = &[
    ("--turns=1|--turns=0", "2 BadNumber"),
    ("-r|/|-r", "3 NoValue"),
    ("--loose=0*1|--loose=1", "2 BadSchedule"),
    ("-i|1:2|-i|x", "3 Twice"),
    ("-0|-i|x", "2 Twice"),
    ("-b|:x|-y", "1 BadBind"),
    ("--turns=0|-x", "1 BadNumber"),
    ("--calm|-x", "2 Unknown"),
    ("--case=1|-r", "2 NoValue"),
    ("-x|/p|a\0", "3 ZeroByte"),
    ("-r|a\0b|-x", "2 ZeroByte"),
    ("\0|\0", "1 ZeroByte"),
    ("--calm|/p", "1 CalmAlone"),
    ("-r|/|--calm|p", "3 CalmAlone"),
    ("--calm|--calm", "1 CalmAlone"),
    ("--case=1|/p", "2 CaseAlone"),
    ("--case=1|-r|/", "2 CaseAlone"),
    ("-r|/|--case=1", "1 CaseAlone"),
    ("--case=1|-b|x", "2 CaseAlone"),
    ("-b|x|--case=1", "1 CaseAlone"),
    ("--case=1|-w|/", "2 CaseAlone"),
    ("-w|/|--case=1", "1 CaseAlone"),
    ("--case=1|-0", "2 CaseAlone"),
    ("-0|--case=1", "1 CaseAlone"),
    ("--case=1|-i|1:2", "2 CaseAlone"),
    ("-i|1:2|--case=1", "1 CaseAlone"),
    ("--case=1|--env=A=1", "2 CaseAlone"),
    ("--env=A=1|--case=1", "1 CaseAlone"),
    ("--case=1|--native", "2 CaseAlone"),
    ("--native|--case=1", "1 CaseAlone"),
    ("--case=1|--calm", "2 CaseAlone"),
    ("--calm|--case=1", "1 CaseAlone"),
    ("--turns=1|--case=1|--native|p", "3 CaseAlone"),
    ("--case=1|--loose=0*1", "2 CaseAlone"),
    ("--loose=0*1|--case=1", "1 CaseAlone"),
    ("--loose=0*1|--native|--case=1", "1 CaseAlone"),
    ("--loose=0*1|--calm", "2 CalmAlone"),
    ("--calm|--loose=0*1|-0", "1 CalmAlone"),
    ("--loose=0*1|--native|/p", "1 LooseAlone"),
    ("--native|--loose=0*1|/p", "2 LooseAlone"),
    ("--loose=0*1|--native|--calm", "1 LooseAlone"),
    ("--calm|--native|--loose=0*1", "3 LooseAlone"),
    ("--loose=0*1|--schedule=0*1", "1 LooseAlone"),
    ("--schedule=0*1|--loose=0*1", "2 LooseAlone"),
    ("--loose=0*1|-0", "1 LooseAlone"),
    ("-0|--loose=0*1", "2 LooseAlone"),
    ("--loose=0*1|-i|1:2", "1 LooseAlone"),
    ("-i|1:2|--loose=0*1", "3 LooseAlone"),
    ("-r|/|--loose=0*1|--root-id|p", "3 LooseAlone"),
];

/// One table of words that are accepted, and what they ask for.
const ACCEPTED: &[(&str, &str)] = &[
    ("/p", "/ / 1000000 /p"),
    ("sh|-c|--calm", "/ / 1000000 sh -c --calm"),
    ("-r|/g|p", "/g / 1000000 p"),
    ("--rootfs=/g=h", "/g=h / 1000000"),
    ("-r|-x", "-x / 1000000"),
    ("-r|", " / 1000000"),
    ("--rootfs=", " / 1000000"),
    ("-w|/a", "/ /a 1000000"),
    ("--pwd=/a", "/ /a 1000000"),
    ("--cwd=", "/  1000000"),
    ("-0|-0", "/ / 1000000 ids 0:0"),
    ("--root-id|-0", "/ / 1000000 ids 0:0"),
    ("-i|4294967294:0", "/ / 1000000 ids 4294967294:0"),
    ("--change-id=0000000007:08", "/ / 1000000 ids 7:8"),
    ("-b|a:b:c", "/ / 1000000 bind 1 a b:c false"),
    ("-m|x!", "/ / 1000000 bind 1 x x true"),
    ("--bind=x:y!", "/ / 1000000 bind 1 x y true"),
    ("--mount=x!:y", "/ / 1000000 bind 1 x! y false"),
    ("-b|x!!", "/ / 1000000 bind 1 x! x! true"),
    ("-b|--", "/ / 1000000 bind 1 -- -- false"),
    (
        "-b|a|-w|/|-m|b",
        "/ / 1000000 bind 1 a a false bind 2 b b false",
    ),
    (
        "--env=A=1|--env=B=2|--env=A=3",
        "/ / 1000000 env A=3 env B=2",
    ),
    ("--env=A=|--env=AB=C=D", "/ / 1000000 env A= env AB=C=D"),
    ("--turns=1", "/ / 1"),
    ("--turns=00000001", "/ / 1"),
    ("--turns=10000000", "/ / 10000000"),
    ("--schedule=0*1", "/ / 1000000 slot 0*1"),
    (
        "--schedule=255*100000,007*01",
        "/ / 1000000 slot 255*100000 slot 7*1",
    ),
    ("--loose=0*1|/p", "/ / 1000000 loose 0*1 /p"),
    (
        "-r|/g|--loose=255*100000,007*01|--turns=3|p",
        "/g / 3 loose 255*100000 loose 7*1 p",
    ),
    ("--native|--native", "/ / 1000000 native"),
    ("--calm|--native|p", "/ / 1000000 native calm p"),
    ("--case=0", "/ / 1000000 case 0"),
    (
        "--turns=5|--case=65535|--schedule=1*1",
        "/ / 5 slot 1*1 case 65535",
    ),
];

fn words_of(alloc: Global, line: &str) -> Result<Vec<String>, NoMemory> {
    let mut words = Vec::new(alloc);
    for word in line.split('|') {
        let word = String::from_str(alloc, word)?;
        words.push(word)?;
    }
    Ok(words)
}

fn text(bytes: &[u8]) -> &str {
    match str::from_utf8(bytes) {
        Ok(text) => text,
        Err(_error) => "?",
    }
}

/// Adds one word behind others.
fn add(line: &mut String, word: &str) -> Result<(), NoMemory> {
    line.push_str(" ")?;
    line.push_str(word)?;
    Ok(())
}

/// Adds texts, each behind a word of its own.
fn add_texts(line: &mut String, front: &str, texts: &Texts) -> Result<(), NoMemory> {
    for k in 0..texts.len() {
        if let Some(bytes) = texts.at(k) {
            line.push_str(front)?;
            add(line, text(bytes))?;
        }
    }
    Ok(())
}

fn add_bind(alloc: Global, line: &mut String, bind: &Bind) -> Result<(), NoMemory> {
    let index = bind.index;
    let host = text(bind.host.as_slice());
    let guest = text(bind.guest.as_slice());
    let keep = bind.keep;
    let bind = format!(in alloc; "bind {index} {host} {guest} {keep}")?;
    add(line, bind.as_str())
}

/// Adds slots, each behind a word of its own.
fn add_slots(
    alloc: Global,
    line: &mut String,
    front: &str,
    slots: &[Slot],
) -> Result<(), NoMemory> {
    for slot in slots {
        let Slot { pick, fuel } = *slot;
        let slot = format!(in alloc; "{front} {pick}*{fuel}")?;
        add(line, slot.as_str())?;
    }
    Ok(())
}

fn add_ids(alloc: Global, line: &mut String, ids: Option<(u32, u32)>) -> Result<(), NoMemory> {
    let Some((uid, gid)) = ids else {
        return Ok(());
    };
    let ids = format!(in alloc; "ids {uid}:{gid}")?;
    add(line, ids.as_str())
}

fn add_case(alloc: Global, line: &mut String, number: Option<u32>) -> Result<(), NoMemory> {
    let Some(number) = number else {
        return Ok(());
    };
    let case = format!(in alloc; "case {number}")?;
    add(line, case.as_str())
}

fn add_lists(alloc: Global, line: &mut String, options: &Options) -> Result<(), NoMemory> {
    for bind in options.binds.as_slice() {
        add_bind(alloc, line, bind)?;
    }
    add_texts(line, " env", &options.env)?;
    add_slots(alloc, line, "slot", options.schedule.as_slice())?;
    add_slots(alloc, line, "loose", options.loose.as_slice())
}

/// What options ask for, as a row writes it.
fn written(alloc: Global, options: &Options) -> Result<String, NoMemory> {
    let root = text(options.root.as_slice());
    let cwd = text(options.cwd.as_slice());
    let turns = options.turns;
    let mut line = format!(in alloc; "{root} {cwd} {turns}")?;
    add_ids(alloc, &mut line, options.ids)?;
    add_lists(alloc, &mut line, options)?;
    if options.native {
        add(&mut line, "native")?;
    }
    if options.calm {
        add(&mut line, "calm")?;
    }
    add_case(alloc, &mut line, options.case)?;
    add_texts(&mut line, "", &options.command)?;
    Ok(line)
}

/// The name that a row has for a rule.
fn name_of(why: Why) -> &'static str {
    match why {
        Why::Unknown => "Unknown",
        Why::NoValue => "NoValue",
        Why::BadNumber => "BadNumber",
        Why::BadSchedule => "BadSchedule",
        Why::BadBind => "BadBind",
        Why::BadEnv => "BadEnv",
        Why::Twice => "Twice",
        Why::CalmAlone => "CalmAlone",
        Why::CaseAlone => "CaseAlone",
        Why::ZeroByte => "ZeroByte",
        Why::BadId => "BadId",
        Why::LooseAlone => "LooseAlone",
    }
}

/// What words are read as, as a row writes it.
fn read_as(alloc: Global, words: &[String]) -> Result<String, NoMemory> {
    if words.len() >= 100 {
        return Err(NoMemory);
    }
    match read(alloc, words) {
        Ok(options) => written(alloc, &options),
        Err(WordsFault::Usage { word, why }) => {
            let rule = name_of(why);
            Ok(format!(in alloc; "{word} {rule}")?)
        }
        Err(WordsFault::NoMemory) => Err(NoMemory),
    }
}

/// How many slots are read of a schedule of `count` slots.
fn slots_read(alloc: Global, count: usize) -> Result<Option<usize>, NoMemory> {
    let mut word = String::from_str(alloc, "--schedule=0*1")?;
    for _more in 1..count {
        word.push_str(",0*1")?;
    }
    let words = vec![in alloc; word]?;
    match read(alloc, words.as_slice()) {
        Ok(options) => Ok(Some(options.schedule.len())),
        Err(WordsFault::Usage { .. }) => Ok(None),
        Err(WordsFault::NoMemory) => Err(NoMemory),
    }
}

#[test]
fn words_are_read_as_they_must(rt: HostRuntime) -> Result<(), Fail> {
    for table in [REFUSED, FIRST_FAULTS, ACCEPTED] {
        for (line, want) in table {
            let words = words_of(rt.alloc(), line)?;
            let answer = read_as(rt.alloc(), words.as_slice())?;
            assert!(rt; answer.as_str() == *want, "{line}: {answer}");
        }
    }
    let answer = read_as(rt.alloc(), &[])?;
    assert!(rt; answer.as_str() == "/ / 1000000", "{answer}");
    // A schedule has 1024 slots at most.
    assert!(rt; slots_read(rt.alloc(), 1024)? == Some(1024));
    assert!(rt; slots_read(rt.alloc(), 1025)? == None);
    Ok(())
}
