//! Guests that run loosely: the stops of their processes come apart. All of it was worked out by hand.
ghost use Rattle.std.specs.Prelude.{◌≡◌, true};

use crate::run::ended;
use crate::watched::noted;
use guests::guest;
use kr_loose::Loose;
use kr_loose::below::{Bytes, NoMemory, Places, Stops, Turned};
use std::alloc::Global;
use std::process::Abort;
use std::test::Fail;

const STEPS: u32 = 1000;

const FUEL: u32 = 1000;

/// A guest, whether the steps go round its processes or each is the first ready one's, and what is seen of it.
const LOOSE: &[(&str, bool, &str)] = &[
    // Both processes make a call after the clone: the child's first stop comes before the parent's, and its second stop behind that.
    (
        "quiet clone 17;quiet getppid;parent quiet wait4 -1 0 0 0;parent bytes notes 0 buf",
        true,
        "e2 b2-3 x2 e3 e2 x3 x2 e3 g3 e2 x2 e2 x2 \nover 0",
    ),
    // A call that waits has no other first stop when it goes on, which is before the second stop of the call for which it waited.
    (
        "quiet pipe2 buf 0;quiet clone 17;parent quiet read 3 buf 1;child quiet write 4 'x 1;\
         parent quiet wait4 -1 0 0 0;parent bytes notes 0 buf",
        false,
        "e2 x2 e2 b2-3 x2 e2 e3 x2 e2 x3 e3 g3 x2 e2 x2 \nover 0",
    ),
];

/// Adds what a step put out, and forgets it.
fn note<P: Places, S: Stops, const M: u8>(
    loose: &mut Loose<P, S, M>,
    seen: &mut Bytes,
) -> Result<(), NoMemory>
    ensures whole { loose.new.kernel.whole ≡ loose.old.kernel.whole }
    ensures calls { loose.new.kernel.calls ≡ loose.old.kernel.calls }
{
    seen.append(loose.kernel().out())?;
    loose.clear_bytes();
    Ok(())
}

/// Makes steps until none can be made, or `STEPS` were: what they put out, how it ended, and the status.
fn run<P: Places, S: Stops, const M: u8>(
    alloc: Global,
    loose: &mut Loose<P, S, M>,
    go_round: bool,
) -> Result<Bytes, NoMemory>
    requires whole { loose.old.kernel.whole ≡ true }
    requires new { loose.old.kernel.calls ≡ 0 }
{
    let mut seen = Bytes::new(alloc);
    for made in 0..STEPS {
        let pick = if go_round { made } else { 0 };
        match loose.step(pick, FUEL)? {
            Turned::Ran => note(loose, &mut seen)?,
            Turned::Deadlock => return ended(alloc, seen, "deadlock", loose.kernel().status()),
            Turned::Over => return ended(alloc, seen, "over", loose.kernel().status()),
        }
    }
    ended(alloc, seen, "spent", loose.kernel().status())
}

/// What is seen of a guest.
fn seen<const M: u8>(alloc: Global, elf: &[u8], go_round: bool) -> Result<Bytes, Fail> {
    let mut loose = Loose::new(alloc, noted::<M>(alloc, elf)?);
    Ok(run(alloc, &mut loose, go_round)?)
}

/// Compares it, without marks and with them.
fn compare<R: Abort>(
    rt: &R,
    alloc: Global,
    elf: &[u8],
    go_round: bool,
    wanted: &str,
) -> Result<(), Fail> {
    assert!(rt;
        seen::<0>(alloc, elf, go_round)?.as_slice() == wanted.as_bytes(),
        "{wanted}"
    );
    assert!(rt;
        seen::<1>(alloc, elf, go_round)?.as_slice() == wanted.as_bytes(),
        "{wanted}"
    );
    Ok(())
}

#[test]
fn stops_come_apart(rt: HostRuntime) -> Result<(), Fail> {
    let alloc = rt.alloc();
    for (text, go_round, wanted) in LOOSE {
        let elf = guest(alloc, text)?;
        compare(&rt, alloc, elf.as_slice(), *go_round, wanted)?;
    }
    Ok(())
}
