//! Where the paths of a call lead.
ghost use Rattle.std.specs.Prelude.{◌≡◌, Some, IfOk, IfSome};
ghost use Rattle.kr_calls.specs.PathTable.{path_use};
ghost use Rattle.pt_canon.specs.pt_bind.Binding.{IsWritten};
ghost use Rattle.pt_canon.specs.Canon.{IsAnswer, IsWalkNoted, texts_by};
ghost use Rattle.pt_args.specs.Walks.{unmet_from, walked, walked_from, walked_unmet, IsReached};
ghost use Rattle.pt_canon.specs.Leaving.{OnlyPeeks};
ghost use Rattle.pt_canon.specs.Remembering.{Agrees, WalksOn};

use crate::caller::Caller;
use crate::purpose::{Purpose, purpose_of};
use kr_calls::PathArg;
use pt_canon::below::pr_base::Peeks;
use pt_canon::laws::answers_are_of_their_texts;
use pt_canon::{Canon, WalkErr, Walker};

/// Where a path of a call leads, what it is for, and the number of the register that holds its address.
#[derive(Drop)]
pub struct Reached {
    pub register: u8,
    pub purpose: Purpose,
    pub canon: Canon,
}

impl<'a> Caller<'a> {
    /// Where a path of a call leads; `None` where the plain kernel is to see it as it is: an empty one, which stands for a
    /// descriptor, and one that begins where no directory is open. `opening` tells whether the call is openat(2).
    pub fn walk_path<K: Peeks>(
        &self,
        kernel: &mut K,
        walker: &mut Walker,
        opening: bool,
        path: PathArg<'_>,
    ) -> Result<Option<Reached>, WalkErr>
        requires agrees { Agrees walker.old (K.peeked kernel.old) }
        ensures answer { let texts = texts_by walker.old.table (K.peeked kernel.old) self.now.tags.now in
            IsAnswer (walked texts self.now.pid opening (path_use path.entry)) result }
        ensures written { IfOk result (λ reached. IfSome reached IsReached) }
        ensures walker { WalksOn (K.peeked kernel.old) walker.old walker.new }
        ensures noted { let texts = texts_by walker.old.table (K.peeked kernel.old) self.now.tags.now in
            IsWalkNoted (walked_unmet texts self.now.pid (path_use path.entry) (K.unmet kernel.old)) (K.unmet kernel.new) result }
        ensures kernel { OnlyPeeks K.peeked K.kept kernel.old kernel.new }
    {
        if path.text.is_empty() {
            return Ok(None);
        }
        match self.base_of(kernel, walker.table(), path)? {
            Some(base) => self.walk_from(kernel, walker, base.as_slice(), opening, path),
            None => Ok(None),
        }
    }

    /// Where a path leads from a guest text.
    fn walk_from<K: Peeks>(
        &self,
        kernel: &mut K,
        walker: &mut Walker,
        base: &[u8],
        opening: bool,
        path: PathArg<'_>,
    ) -> Result<Option<Reached>, WalkErr>
        requires base { IsWritten base.now }
        requires agrees { Agrees walker.old (K.peeked kernel.old) }
        ensures answer { let texts = texts_by walker.old.table (K.peeked kernel.old) self.now.tags.now in
            IsAnswer (walked_from texts opening (path_use path.entry) (Some base.now)) result }
        ensures written { IfOk result (λ reached. IfSome reached IsReached) }
        ensures walker { WalksOn (K.peeked kernel.old) walker.old walker.new }
        ensures noted { let texts = texts_by walker.old.table (K.peeked kernel.old) self.now.tags.now in
            IsWalkNoted (unmet_from texts (path_use path.entry) (Some base.now) (K.unmet kernel.old)) (K.unmet kernel.new) result }
        ensures kernel { OnlyPeeks K.peeked K.kept kernel.old kernel.new }
    {
        answers_are_of_their_texts();
        let canon = walker.canon(kernel, self.tags, base, path.text, path.mode)?;
        let purpose = purpose_of(opening, path.mode);
        Ok(Some(Reached {
            register: path.register,
            purpose,
            canon,
        }))
    }
}
