//! Laws of calls that leave registers alone, each carried by a function that does nothing.
ghost use Rattle.law_kept.specs.ImagesApart.{ChangesStandApart, RegistersGivenBack};
ghost use Rattle.law_kept.specs.ImagePaths.{PathCallsAnswer, PathCallsLeaveImages, PathsAreTold};

/// Changes that leave what processes compute on are the same with other registers and another memory of their caller.
pub fn changes_stand_apart<T>()
    ensures { ChangesStandApart T }
{}

/// So a caller that had other registers for the time of such a call, and is given its own behind it, is as if it had called with its own.
pub fn registers_given_back<T>()
    ensures { RegistersGivenBack T }
{}

/// Each call that has a path, but for execve(2), is one of those that are told of paths.
pub fn paths_are_told()
    ensures { PathsAreTold }
{}

/// Such a call comes to changes that leave what processes compute on.
pub fn path_calls_leave_images()
    ensures { PathCallsLeaveImages }
{}

/// And it answers.
pub fn path_calls_answer()
    ensures { PathCallsAnswer }
{}
