//! The start of a program, at the host's own view.
ghost use Rattle.std.specs.Prelude.{◌≡◌, true, IfOk};
ghost use Rattle.kr_loose.specs.kr_first.Started.{LeadsToDirectory};
ghost use Rattle.kr_loose.specs.law_allowed.Texts.{IsText};
ghost use Rattle.kr_loose.specs.kr_view.View.{plain};

use kr_loose::below::{Bytes, First, NoMemory, Plain, Reach, Texts, Tree, User, directory_at};
use std::alloc::Global;
use std::test::Fail;

/// No walk was made before the start.
const NOTHING: Reach = Reach {
    longest: 0,
    met_proc: false,
};

/// Whether a text has no zero byte.
fn is_text(text: &[u8]) -> bool
    ensures { result ≡ true → IsText text.now }
{
    text.iter().all(|b| *b != 0)
}

/// The start of the program `/p` in the root.
fn first(alloc: Global) -> Result<First, NoMemory> {
    let path = Bytes::copy(alloc, b"/p")?;
    let cwd = Bytes::copy(alloc, b"/")?;
    let mut args = Texts::new(alloc);
    args.push(Bytes::copy(alloc, b"/p")?)?;
    Ok(First {
        path,
        args,
        env: Texts::new(alloc),
        cwd,
        ids: [7, 8, 9, 10],
        reach: NOTHING,
    })
}

/// The same, in a tree at the host's own view.
pub fn asked(alloc: Global, places: &Plain, tree: &Tree, user: User) -> Result<First, Fail>
    ensures text { IfOk result (λ first. IsText first.path) }
    ensures cwd { IfOk result (λ first. LeadsToDirectory plain tree.now user first.cwd) }
{
    let first = first(alloc)?;
    let mut way = NOTHING;
    let cwd = first.cwd.as_slice();
    match directory_at(alloc, places, tree, user, cwd, &mut way)? {
        Some(_directory) => {}
        None => return Err(Fail::from("no working directory")),
    }
    if !is_text(first.path.as_slice()) {
        return Err(Fail::from("no path"));
    }
    Ok(first)
}
