//! What a probe does, step by step.

ghost use Rattle.std.specs.Prelude.{◌≡◌, ◌+◌, ◌≤◌, ◌^◌, length};
ghost use Rattle.pr_gen.specs.Steps as spec;

use rv_asm::below::{Bytes, Texts};

/// A step of a probe.
#[derive(Drop)]
pub enum ProbeStep {
    /// A call of the kernel. A call of number 220 is a clone.
    Call {
        number: u16,
        /// The arguments, in a0 to a5.
        args: [Arg; 6],
        who: Who,
        show: Show,
    },
    /// Sets the stack pointer.
    SetSp(u64),
}

/// An argument of a call.
#[derive(Drop)]
pub enum Arg {
    /// A number.
    Num(u64),
    /// The address of a text, with a zero byte behind it.
    Text(Bytes),
    /// The address of a list of addresses of texts, with a zero address behind it.
    List(Texts),
    /// The address of the buffer, of 4,096 bytes.
    Buf,
    /// What the step at this place answered, counted from 0; 0 where it wasn't made or made no call.
    Answer(u32),
}

/// Who makes a step. Before a clone was made by a process or by one that it comes from, it isn't a child.
#[derive(Clone, Copy)]
pub enum Who {
    /// Each process.
    All,
    /// Processes whose last clone answered 0.
    Child,
    /// Processes whose last clone didn't answer 0.
    Parent,
}

/// What is shown of a call's answer, by one call of `write` to descriptor 1.
#[derive(Clone, Copy)]
pub enum Show {
    Nothing,
    /// The answer as a decimal number, and a newline.
    Number,
    /// As many bytes of the buffer as the answer says, but at most all of it, and a newline. A negative
    /// answer as a number.
    Content,
}

/// How many bytes of data a text takes: with one to eight zeros behind it, so that the next one stands at
/// a multiple of eight.
pub(crate) fn text_room(text: &[u8]) -> u64
    requires { length text.now ≤ 2 ^ 33 }
    ensures { result ≡ spec.text_room text.now }
{
    let len = text.len() as u64;
    len + (8 - len % 8)
}

// How many bytes of data a list of texts takes: the addresses, one more that is zero, and the texts. An
// empty list takes nothing: all share a zero.
fn list_room(texts: &Texts) -> u64
    requires { spec.list_room texts.now ≤ 2 ^ 32 }
    ensures { result ≡ spec.list_room texts.now }
{
    let count = texts.len() as u64;
    let mut room = 8 * (count + count.min(1));
    let mut k = 0;
    while let Some(text) = texts.at(k) {
        room += text_room(text);
        k += 1;
    }
    room
}

impl Arg {
    ghost use Rattle.pr_gen.specs.Steps.{room_of};

    /// How many bytes of data it takes.
    pub(crate) fn room(&self) -> u64
        requires { room_of self.now ≤ 2 ^ 32 }
        ensures { result ≡ room_of self.now }
    {
        match self {
            Arg::Text(text) => text_room(text.as_slice()),
            Arg::List(texts) => list_room(texts),
            Arg::Num(_) | Arg::Buf | Arg::Answer(_) => 0,
        }
    }
}
