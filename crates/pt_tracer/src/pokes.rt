//! Bytes that are written into the memory of a stopped process.
ghost use Rattle.std.specs.Prelude.{◌≡◌, IsTrue, OnOk, length};
ghost use Rattle.pt_results.specs.rv_mem.Pages.{allows_all};
ghost use Rattle.pt_faker.specs.Stopping.{after_poke, memory_at, OnlyEdits};
ghost use Rattle.pt_tracer.specs.Poking.{may_poke, poked};

use pt_faker::Tracee;
use pt_faker::below::{Bytes, NoMemory, Use};
use pt_faker::memory::write;

/// Whether all of the bytes may be written.
pub(crate) fn may_poke<T: Tracee>(t: &T, pokes: &[(u64, Bytes)]) -> bool
    ensures { result ≡ may_poke pokes.now (T.stopped t.now) }
{
    match pokes.split_first() {
        Some(((at, bytes), others)) => {
            t.can(*at, bytes.len() as u64, Use::Write) && may_poke(t, others)
        }
        None => true,
    }
}

/// Writes bytes, all of which may be written. After want of memory the process may only be dropped.
pub(crate) fn poke_all<T: Tracee>(t: &mut T, pokes: &[(u64, Bytes)]) -> Result<(), NoMemory>
    requires may { IsTrue (may_poke pokes.now (T.stopped t.old)) }
    ensures poked { OnOk result (T.stopped t.new ≡ poked pokes.now (T.stopped t.old)) }
    ensures edits { OnlyEdits T.stopped T.around t.old t.new }
{
    // For the proof alone: the process lives.
    let _pid = t.pid();
    let Some(((at, bytes), others)) = pokes.split_first() else {
        return Ok(());
    };
    write_before(t, *at, bytes.as_slice(), others)?;
    poke_all(t, others)
}

/// Writes bytes, which changes no right to write others.
fn write_before<T: Tracee>(
    t: &mut T,
    at: u64,
    bytes: &[u8],
    _others: &[(u64, Bytes)],
) -> Result<(), NoMemory>
    requires may { IsTrue (allows_all (memory_at (T.stopped t.old)).pages at (length bytes.now) Use.Write) }
    ensures after { OnOk result (T.stopped t.new ≡ after_poke at bytes.now (T.stopped t.old)) }
    ensures still { OnOk result (may_poke _others.now (T.stopped t.new) ≡ may_poke _others.now (T.stopped t.old)) }
    ensures edits { OnlyEdits T.stopped T.around t.old t.new }
{
    // For the proof alone: the process lives.
    let _pid = t.pid();
    write(t, at, bytes)
}
