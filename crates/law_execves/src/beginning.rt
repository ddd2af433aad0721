//! Laws of execve(2) as it begins, each carried by a function that does nothing.
ghost use Rattle.law_execves.specs.Beginning.{ExecvesBeginTogether};

/// At the first stop of an execve a tracer goes by the same as if it were told of the kernel with mounts, and both kernels begin together.
pub fn execves_begin_together<S>()
    ensures { ExecvesBeginTogether S }
{}
