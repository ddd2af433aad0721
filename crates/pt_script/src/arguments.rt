//! The arguments of interpreters, and how much a program may be given.
ghost use Rattle.std.specs.Prelude.{◌≡◌, ◌+◌, ◌≤◌, ◌<◌, ◌∷◌, drop, length, IfOk};
ghost use Rattle.std.specs.Option.{SomeIff};
ghost use Rattle.pt_args.specs.kr_calls.Expansion.{bytes_with_ends, is_too_big, new_args};

use pt_args::below::{Bytes, MOST_BYTES, MOST_TEXTS, NoMemory, Texts};
use std::alloc::Global;

/// The arguments of an interpreter: its own path, the argument on the line if there is one, the script's path, and the
/// old arguments but the first.
pub(crate) fn new_args(
    alloc: Global,
    interpreter: &[u8],
    argument: &[u8],
    path: Bytes,
    args: Texts,
) -> Result<Texts, NoMemory>
    ensures { IfOk result (λ new. new ≡ new_args interpreter.now argument.now path args) }
{
    let mut new = Vec::new(alloc);
    new.push(Bytes::copy(alloc, interpreter)?)?;
    if !argument.is_empty() {
        new.push(Bytes::copy(alloc, argument)?)?;
    }
    new.push(path)?;
    let mut old = args.into_vec();
    if !old.is_empty() {
        old.remove(0);
    }
    new.append(&mut old)?;
    Ok(Texts::from(new))
}

/// Whether there are more arguments than a program may be given, or more bytes, `env_bytes` of the environment among them.
pub fn is_too_big(args: &Texts, env_bytes: u32) -> bool
    ensures { result ≡ is_too_big env_bytes args.now }
{
    if args.len() > MOST_TEXTS {
        return true;
    }
    match MOST_BYTES.checked_sub(env_bytes as usize) {
        Some(room) => bytes_within(args, room).is_none(),
        None => true,
    }
}

/// How many bytes texts have with their ends, `None` where that is more than `most`.
pub fn bytes_within(texts: &Texts, most: usize) -> Option<usize>
    ensures { SomeIff result (bytes_with_ends texts.now ≤ most) (bytes_with_ends texts.now) }
{
    let mut left = most;
    for k in 0..texts.len() {
        let text = text_at(texts, k);
        if text.len() >= left {
            return None;
        }
        left -= text.len() + 1;
    }
    Some(most - left)
}

/// The text at a place that is there.
fn text_at(texts: &Texts, k: usize) -> &[u8]
    requires { k < length texts.now }
    ensures { drop k texts.now ≡ result.now ∷ drop (k + 1) texts.now }
{
    texts.at(k).unwrap()
}
