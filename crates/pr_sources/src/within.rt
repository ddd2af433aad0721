//! A source, read to its end within a limit.
ghost use Rattle.std.specs.Prelude.{ℕ, List, ◌+◌, ◌≤◌, ◌<◌, ◌^◌, IfOk, OnOk, IfErr};
ghost use Rattle.pr_io.specs.Drawn.{Gave, IsDrawn, IsWhole, drawn, gave};
ghost use Rattle.pr_sources.specs.Within.{ComesTo, IsAskedWithin, IsReadEnd, IsReadRefusal, ReadsWithin, within};

use crate::{Answer, Which};
use pr_io::Source;
use pr_io::below::Bytes;
use std::alloc::Global;

/// Reads a source to its end, or until `limit` bytes were read.
fn read_until<S: Source>(
    alloc: Global,
    source: &mut S,
    limit: usize,
    which: Which,
) -> Result<Bytes, Answer>
    ensures read { IfOk result (ReadsWithin limit (drawn S.Source source.old source.new)) }
    ensures stopped { IfErr result (λ _. (bs : List ℕ) × Gave (drawn S.Source source.old source.new) bs) }
    ensures refused { IfErr result (IsReadEnd which (drawn S.Source source.old source.new)) }
    ensures count { S.faults source.old ≤ S.faults source.new }
    ensures takes { S.takes source.new ≤ S.takes source.old + limit }
{
    let mut bytes = Bytes::new(alloc);
    let mut buffer = [0; 4096];
    while bytes.len() < limit {
        let room = (limit - bytes.len()).min(buffer.len());
        let part = &mut buffer[..room];
        let Ok(taken) = source.take(part) else {
            return Err(Answer::ReadFault { which });
        };
        if taken == 0 {
            return Ok(bytes);
        }
        if bytes.append(&part[..taken]).is_err() {
            return Err(Answer::NoMemory);
        }
    }
    Ok(bytes)
}

/// Reads a source to its end. One that has more bytes than its limit is read up to one byte more, and refused.
pub(crate) fn read_within<S: Source>(
    alloc: Global,
    source: &mut S,
    limit: usize,
    which: Which,
) -> Result<Bytes, Answer>
    requires { limit < 2 ^ 32 }
    ensures told { ComesTo (within limit which (gave (drawn S.Source source.old source.new))) result }
    ensures refused { IfErr result (IsReadRefusal limit which (drawn S.Source source.old source.new)) }
    ensures gives { IsDrawn (drawn S.Source source.old source.new) }
    ensures end { OnOk result (IsWhole (drawn S.Source source.old source.new)) }
    ensures count { S.faults source.old ≤ S.faults source.new }
    ensures takes { IsAskedWithin limit (S.takes source.old) (S.takes source.new) }
{
    let bytes = read_until(alloc, source, limit + 1, which)?;
    if limit < bytes.len() {
        return Err(Answer::TooLong { which });
    }
    Ok(bytes)
}
