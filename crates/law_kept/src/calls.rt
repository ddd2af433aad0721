//! Laws of calls, each carried by a function that does nothing.
ghost use Rattle.law_kept.specs.Calls.{CallsKeepBytes, ExecutionsKeepBytes, PlainCallsKeepBytes};

/// Each call but execve(2) writes bytes into its caller's memory, and its changes bring bytes.
pub fn calls_keep_bytes()
    ensures { CallsKeepBytes }
{}

/// A program that execve(2) puts in place of its caller's is made of bytes.
pub fn executions_keep_bytes()
    ensures { ExecutionsKeepBytes }
{}

/// So is what any call leaves, from its decoding on.
pub fn plain_calls_keep_bytes()
    ensures { PlainCallsKeepBytes }
{}
