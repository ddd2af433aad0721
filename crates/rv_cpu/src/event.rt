//! How an instruction ends.

/// How an instruction ended.
#[derive(Clone, Copy)]
pub enum Event {
    /// The pc is at the next instruction.
    Next,
    /// The pc is at an ECALL, whose call is to be made.
    Call,
    /// The process is to be killed by this signal, whose number is below 128.
    Killed(u8),
}
