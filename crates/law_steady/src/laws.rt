//! Laws of steady walks, each carried by a function that does nothing.
ghost use Rattle.law_steady.specs.Ahead.{CallsAreForetold, WritesAreFound};
ghost use Rattle.law_steady.specs.Along.{ShapeIsToldAlong, ShapeStaysAlong};
ghost use Rattle.law_steady.specs.Bytes.{BytesAreTold, BytesAreToldAlong};
ghost use Rattle.law_steady.specs.Calls.{CallsAlterOnce, CallsLeaveBytes, CallsLeaveShape, ProgramsLeaveBoth};
ghost use Rattle.law_steady.specs.Exact.{LessIsTold, NamesAreTexts, ShapeIsTold};
ghost use Rattle.law_steady.specs.NamesLast.{HostNamesLast};
ghost use Rattle.law_steady.specs.Steady.{SteadyPeeksLast, SteadyWalksLast};
ghost use Rattle.law_steady.specs.TextSteady.{SteadyKeysLast};
ghost use Rattle.law_steady.specs.Told.{CallsAreTold, EndsLeaveBoth, ProgramsAreTold, QuietChangesLeaveBoth, SameTreesHaveBoth};

/// A steady host walk is the same in every state with that shape and that user, whoever asks.
pub fn steady_walks_last<M, N, X, Y>()
    ensures { SteadyWalksLast M N X Y }
{}

/// So is what a tracer is told of a steady host path.
pub fn steady_peeks_last<M, N, X, Y>()
    ensures { SteadyPeeksLast M N X Y }
{}

/// A steady key has the same answer in every state with that shape and that user, whoever asks and whatever the tags.
pub fn steady_keys_last<M, N, X, Y>()
    ensures { SteadyKeysLast M N X Y }
{}

/// Directories have the same host names in trees of one shape.
pub fn host_names_last<M, N, X, Y>()
    ensures { HostNamesLast M N X Y }
{}

/// An inode has a name exactly where a text names it.
pub fn names_are_texts()
    ensures { NamesAreTexts }
{}

/// A change that can be made leaves the shape of the tree exactly where it isn't told to alter it.
pub fn shape_is_told<M>()
    ensures { ShapeIsTold M }
{}

/// What no change of its kind alters isn't told to be altered.
pub fn less_is_told()
    ensures { LessIsTold }
{}

/// Changes of a call, one behind the other, leave the shape of the tree exactly where they aren't told to alter it; to count those that do is to
/// count whether it is altered.
pub fn shape_is_told_along<M>()
    ensures { ShapeIsToldAlong M }
{}

/// Changes none of which can alter the shape of the tree leave it, one behind the other, and the user too.
pub fn shape_stays_along<M>()
    ensures { ShapeStaysAlong M }
{}

/// No change of a call other than openat(2) with O_CREAT, the calls that make, remove and move names, and those that set modes and owners can
/// alter the shape.
pub fn calls_leave_shape()
    ensures { CallsLeaveShape }
{}

/// No change of a call other than a write, a cut, and openat(2) with O_TRUNC can alter the bytes of a file.
pub fn calls_leave_bytes()
    ensures { CallsLeaveBytes }
{}

/// A call makes at most one change that can alter the shape, and at most one that can alter bytes.
pub fn calls_alter_once()
    ensures { CallsAlterOnce }
{}

/// A new program in its caller's place, as execve(2) puts it there, can alter neither.
pub fn programs_leave_both()
    ensures { ProgramsLeaveBoth }
{}

/// A change that can be made leaves the bytes of files exactly where it isn't told to alter them.
pub fn bytes_are_told<M>()
    ensures { BytesAreTold M }
{}

/// And so do changes of a call, one behind the other; to count those that alter bytes is to count whether they are altered.
pub fn bytes_are_told_along<M>()
    ensures { BytesAreToldAlong M }
{}

/// So whether a call alters the shape of the tree, and the bytes of files, is told exactly.
pub fn calls_are_told<M>()
    ensures { CallsAreTold M }
{}

/// And so of a new program in its caller's place.
pub fn programs_are_told<M>()
    ensures { ProgramsAreTold M }
{}

/// Whether a call alters the shape of the tree, and the bytes of files, is told before it is carried out, but of a write its bytes: where it answers a
/// number it alters what was told, and else neither.
pub fn calls_are_foretold<M>()
    ensures { CallsAreForetold M }
{}

/// Of a write that is told by its own changes: it alters the bytes of files where one of them does on the tree before them all.
pub fn writes_are_found<M>()
    ensures { WritesAreFound M }
{}

/// A tree that is left as it is has its shape, and its files have their bytes.
pub fn same_trees_have_both()
    ensures { SameTreesHaveBoth }
{}

/// The end of a process leaves both.
pub fn ends_leave_both<M>()
    ensures { EndsLeaveBoth M }
{}

/// So do changes none of which can alter either.
pub fn quiet_changes_leave_both<M>()
    ensures { QuietChangesLeaveBoth M }
{}
