//! Laws of open files and descriptors, each carried by a function that does nothing.
ghost use Rattle.kr_files.specs.declared.descs.Descriptor.{Descriptor};
ghost use Rattle.kr_files.specs.Descriptors.{Named};
ghost use Rattle.kr_files.specs.Files.{NamesOpenFiles};
ghost use Rattle.kr_files.specs.Laws.{IsKept, OpenHaveFiles, RenamedOntoItself, AreFew, LowestIsLeast, LowestByMeaning};
ghost use Rattle.kr_files.specs.Serves.{CallsServe};
ghost use Rattle.kr_files.specs.WithoutMounts.{CallsGoWithoutMounts};

use crate::descs::Descs;
use crate::files::Files;

/// What holds of every table of open files.
pub fn files_are_kept<M: Copy>(files: &Files<M>)
    ensures { IsKept files.now }
{
    files.are_kept();
}

/// Each open descriptor has its open file.
pub fn open_descriptors_have_files<M: Copy>(files: &Files<M>, d: &Descs)
    requires { NamesOpenFiles files.now d.now }
    ensures { OpenHaveFiles files.now d.now }
{
    files.are_kept();
}

/// A process has at most 1,024 descriptors.
pub fn descriptors_are_few(d: &Descs)
    ensures { AreFew d.now }
{
    d.are_few();
}

/// The lowest free descriptor is the least one that is free, of descriptors and of their meanings.
pub fn lowest_free_is_the_least()
    ensures descriptors { LowestIsLeast Descriptor }
    ensures named { LowestIsLeast Named }
{}

/// The lowest free descriptor, the two lowest, and whether one more pipe is taken are the same of descriptors and
/// of their meaning.
pub fn lowest_free_goes_by_the_meaning<M: Copy>()
    ensures { LowestByMeaning M }
{}

/// An entry renamed onto itself is forgotten.
pub fn renamed_onto_itself_is_forgotten<M: Copy>()
    ensures { RenamedOntoItself M }
{}

/// What a process's descriptors name stays open and counted, whatever its calls answer.
pub fn calls_serve<M: Copy>()
    ensures { CallsServe M }
{}

/// Each call does on open files without their mounts what it does on open files.
pub fn calls_go_without_mounts<M: Copy>()
    ensures { CallsGoWithoutMounts M }
{}
