//! Laws of the definitions, each carried by a function that does nothing.
ghost use Rattle.kr_model.specs.Images.{ProcessesStayAlike};
ghost use Rattle.kr_model.specs.Judged.{ChangesAreJudged, NamesStay};
ghost use Rattle.kr_model.specs.Laws.{AllChangesAreBare, AnswersEndNobody, CallsAlike, CallsKeepToTheirLines, ChangesAreBare, EndsAsTold, KnownIsBare, NoWalkAnswersEnosys, OnlyEndersEnd, OthersLeaveMemory, PagesStayAlike, RefusalsChangeNothing, WaitsAsTold};
ghost use Rattle.kr_model.specs.Peeks.{ToldNamesAreTexts};

/// What calls ask of a state is asked of its bare part alone.
pub fn known_is_bare<T>()
    ensures { KnownIsBare T }
{}

/// A change does on the bare part of a state what it does on the state.
pub fn changes_are_bare<T>()
    ensures { ChangesAreBare T }
{}

/// And so do all changes of a call, where the mounts' sources are held and named all along.
pub fn all_changes_are_bare<T>()
    ensures { AllChangesAreBare T }
{}

/// Equal bare states and equal facts give equal replies, for every call but execve(2).
pub fn calls_alike<T, U>()
    ensures { CallsAlike T U }
{}

/// Memories that are equal but for marked bytes stay so when their pages change, and in a child.
pub fn pages_stay_alike()
    ensures { PagesStayAlike }
{}

/// A call, other than execve(2), keeps to its line in the table of the calls: its changes are of the line's kinds, it waits only where the line
/// says so, and ends its caller by the line's word; memory is never wanting by its row.
pub fn calls_keep_to_their_lines()
    ensures { CallsKeepToTheirLines }
{}

/// A call, other than execve(2), whose line says that it writes nothing into its caller's memory leaves all its pages.
pub fn others_leave_memory()
    ensures { OthersLeaveMemory }
{}

/// A call, other than execve(2), that answers an error has changed nothing and written nothing, and where it isn't told
/// ENOSYS of its paths it doesn't answer that.
pub fn refusals_change_nothing()
    ensures { RefusalsChangeNothing }
{}

/// No call is told ENOSYS of its paths, so no call that is decoded answers it.
pub fn no_walk_answers_enosys<X>()
    ensures { NoWalkAnswersEnosys X }
{}

/// A change that isn't judged to alter the shape of the tree, the bytes of files or the slots of processes leaves them
/// as they are.
pub fn changes_are_judged<T, X>()
    ensures { ChangesAreJudged T X }
{}

/// What has a name keeps one, unless a change takes a name away.
pub fn names_stay<T, X>()
    ensures { NamesStay T X }
{}

/// A change leaves the processes of two machines alike: memories that are equal but for marked bytes, and registers that
/// are alike by a relation which a child inherits.
pub fn processes_stay_alike<T, U>()
    ensures { ProcessesStayAlike T U }
{}

/// Names that a tracer is told of a state are the bytes of texts.
pub fn told_names_are_texts<T, X>()
    ensures { ToldNamesAreTexts T X }
{}

/// A call, other than execve(2), that ends its caller changes nothing else: an exit tells its code, and another one SIGPIPE.
pub fn ends_are_told()
    ensures { EndsAsTold }
{}

/// A call, other than execve(2), that ends its caller is an exit or a write.
pub fn only_enders_end()
    ensures { OnlyEndersEnd }
{}

/// A call, other than execve(2), that waits is a read, a write or a wait for a child.
pub fn waits_are_told()
    ensures { WaitsAsTold }
{}

/// A call, other than execve(2), that is answered, or waits, ends nobody.
pub fn answers_end_nobody()
    ensures { AnswersEndNobody }
{}
