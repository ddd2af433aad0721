//! Paths that a walk reads.
ghost use Rattle.std.specs.Prelude.{◌≡◌, ◌≢◌, ◌≤◌, ◌+◌, ◌∷◌, not, [], take, drop, length, slice_range, IsTrue, MatchOption};
ghost use Rattle.std.specs.List.{All};
ghost use Rattle.kr_view.specs.kr_tree.pr_base.Paths.{slash, parts_of};
ghost use Rattle.kr_view.specs.kr_tree.pr_base.Pieces.{BeginsSlash};
ghost use Rattle.kr_view.specs.Begins.{begins_part};

use kr_view::below::pr_base::Bytes;

/// A path of which some components were read. It stands at the beginning of the next one, or at its
/// end.
#[derive(Drop)]
pub(crate) struct Rest {
    text: Bytes,
    at: usize,
    ghost within: { at ≤ length text },
    ghost begun: { IsTrue (begins_part (drop at text)) },
}

/// Where a component stands in its path.
#[derive(Clone, Copy)]
pub(crate) struct Span {
    pub(crate) begin: usize,
    pub(crate) end: usize,
}

impl Rest {
    ghost use Rattle.kr_view.specs.kr_tree.pr_base.Paths.{has_parts};
    ghost use Rattle.kr_walk.specs.Rests.{parts_left};

    pub(crate) fn new(text: Bytes) -> Rest
        ensures { parts_left result ≡ parts_of text }
    {
        let at = slashes(text.as_slice());
        Rest { text, at }
    }

    /// Whether all components were read.
    pub(crate) fn is_done(&self) -> bool
        ensures { result ≡ not (has_parts (parts_left self.now)) }
    {
        self.at == self.text.len()
    }

    /// Reads a component, and tells where it stands.
    pub(crate) fn next(&mut self) -> Option<Span>
        ensures text { self.new.text ≡ self.old.text }
        ensures first { MatchOption result (parts_left self.old ≡ []) (λ span.
            (span.end ≤ length self.new.text) × (span.begin ≤ span.end) × (parts_left self.old ≡ slice_range self.new.text span.begin span.end ∷ parts_left self.new)) }
    {
        if self.is_done() {
            return None;
        }
        let begin = self.at;
        let end = begin + name_length(&self.text.as_slice()[begin..]);
        self.at = end + slashes(&self.text.as_slice()[end..]);
        Some(Span { begin, end })
    }

    /// The bytes of a component.
    pub(crate) fn bytes(&self, span: Span) -> &[u8]
        requires end { span.end ≤ length self.now.text }
        requires begin { span.begin ≤ span.end }
        ensures { result.now ≡ slice_range self.now.text span.begin span.end }
    {
        &self.text.as_slice()[span.begin..span.end]
    }
}

/// How many slashes stand in front of a path.
fn slashes(path: &[u8]) -> usize
    ensures within { result ≤ length path.now }
    ensures begins { IsTrue (begins_part (drop result path.now)) }
    ensures parts { parts_of (drop result path.now) ≡ parts_of path.now }
{
    for (at, byte) in path.iter().enumerate() {
        if *byte != b'/' {
            return at;
        }
    }
    path.len()
}

/// How many bytes stand in front of the first slash of a path.
fn name_length(path: &[u8]) -> usize
    ensures within { result ≤ length path.now }
    ensures plain { All (λ b. b ≢ slash) (take result path.now) }
    ensures begins { BeginsSlash (drop result path.now) }
{
    for (at, byte) in path.iter().enumerate() {
        if *byte == b'/' {
            return at;
        }
    }
    path.len()
}
