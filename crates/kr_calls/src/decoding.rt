//! The request in the registers and the memory of a process.
ghost use Rattle.std.specs.Prelude.{◌≡◌};
ghost use Rattle.kr_calls.specs.Decodes.{Decodes, WantsForTexts};
ghost use Rattle.rv_mem.specs.pr_base.declared.errno.Errno.TheVariants.{ENOSYS};
ghost use Rattle.kr_calls.specs.Decoding.{by_name_or_user, decoding, refuses};

use crate::arguments::{A7, word};
use crate::fault::CallFault;
use crate::request::Request;
use crate::rows::{descriptors, files, identity, memory, names, processes};
use rv_mem::below::pr_base::Errno;
use rv_mem::{Regs, Space};

/// The request of a call, or the error that its decoding answers: ENOSYS for what isn't the number of a call, then
/// what its row says. Bytes, rights and marks of the memory stay; the bytes of texts count as read. Memory can be
/// wanting only for texts, and what was read before that counts as read.
pub fn decode<const M: u8>(regs: &Regs, mem: &mut Space<M>) -> Result<Request, CallFault>
    ensures decoded { Decodes result (decoding regs.now) mem.old mem.new }
    ensures wanting { WantsForTexts result (decoding regs.now) }
    ensures pages { mem.new.pages ≡ mem.old.pages }
{
    match regs.x[A7] {
        17 => Ok(processes::getcwd(regs)),
        23 => Ok(descriptors::dup(regs)),
        24 => Ok(descriptors::dup3(regs)?),
        25 => Ok(descriptors::fcntl(regs)),
        29 => Ok(descriptors::ioctl(regs)),
        46 => Ok(files::ftruncate(regs)?),
        48 => files::faccessat(regs, mem),
        50 => Ok(descriptors::fchdir(regs)),
        52 => Ok(descriptors::fchmod(regs)),
        55 => Ok(descriptors::fchown(regs)),
        56 => files::openat(regs, mem),
        57 => Ok(descriptors::close(regs)),
        59 => Ok(descriptors::pipe2(regs)?),
        61 => Ok(files::getdents64(regs)),
        62 => Ok(files::lseek(regs)),
        63 => Ok(files::read(regs)),
        64 => Ok(files::write(regs)),
        65 => Ok(files::readv(regs)),
        66 => Ok(files::writev(regs)),
        78 => files::readlinkat(regs, mem),
        79 => files::newfstatat(regs, mem),
        80 => Ok(files::fstat(regs)),
        93 => Ok(processes::exit(regs)),
        94 => Ok(processes::exit_group(regs)),
        96 => Ok(Request::SetTidAddress),
        134 => Ok(Request::RtSigaction),
        135 => Ok(Request::RtSigprocmask),
        160 => Ok(processes::uname(regs)),
        166 => Ok(Request::Umask { m: word(regs, 0) }),
        172 => Ok(Request::Getpid),
        173 => Ok(Request::Getppid),
        178 => Ok(Request::Gettid),
        214 => Ok(memory::brk(regs)),
        215 => Ok(memory::munmap(regs)?),
        220 => Ok(processes::clone(regs)),
        222 => Ok(memory::mmap(regs)?),
        226 => Ok(memory::mprotect(regs)?),
        260 => Ok(processes::wait4(regs)?),
        number => name_or_user(number, regs, mem),
    }
}

/// The request of a call that has to do with names of files or with users; any other number is ENOSYS.
fn name_or_user<const M: u8>(
    number: u64,
    regs: &Regs,
    mem: &mut Space<M>,
) -> Result<Request, CallFault>
    ensures decoded { Decodes result (by_name_or_user number regs.now (refuses ENOSYS)) mem.old mem.new }
    ensures wanting { WantsForTexts result (by_name_or_user number regs.now (refuses ENOSYS)) }
    ensures pages { mem.new.pages ≡ mem.old.pages }
{
    match number {
        34 => names::mkdirat(regs, mem),
        35 => names::unlinkat(regs, mem),
        36 => names::symlinkat(regs, mem),
        37 => names::linkat(regs, mem),
        49 => names::chdir(regs, mem),
        51 => names::chroot(regs, mem),
        53 => names::fchmodat(regs, mem),
        54 => names::fchownat(regs, mem),
        221 => names::execve(regs, mem),
        276 => names::renameat2(regs, mem),
        _ => identity::request(number, regs).ok_or(CallFault::Err(Errno::ENOSYS)),
    }
}
