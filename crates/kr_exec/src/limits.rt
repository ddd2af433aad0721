//! How much a program may be given.
ghost use Rattle.std.specs.Prelude.{◌≡◌, ◌≤◌, ◌<◌, ◌+◌, ◌∷◌, drop, false, length, IsNone, IsTrue, IfSome, ◌↔◌, ◌||◌, nat_lt};
ghost use Rattle.std.specs.Option.{SomeIff};
ghost use Rattle.kr_calls.specs.Expansion.{bytes_with_ends, is_too_big};

use elf_read::below::pr_base::Texts;
use elf_read::below::pr_base::limits::{MOST_BYTES, MOST_TEXTS};

/// How many bytes texts have with their ends, `None` where that is more than `most`.
fn bytes_within(texts: &Texts, most: usize) -> Option<usize>
    ensures { SomeIff result (bytes_with_ends texts.now ≤ most) (bytes_with_ends texts.now) }
{
    let mut left = most;
    for k in 0..texts.len() {
        let text = text_at(texts, k);
        if text.len() >= left {
            return None;
        }
        left -= text.len() + 1;
    }
    Some(most - left)
}

/// The text at a place that is there.
fn text_at(texts: &Texts, k: usize) -> &[u8]
    requires { k < length texts.now }
    ensures { drop k texts.now ≡ result.now ∷ drop (k + 1) texts.now }
{
    texts.at(k).unwrap()
}

/// How many bytes an environment has with its ends, `None` where it has more texts or bytes than there may be.
pub fn env_bytes(env: &Texts) -> Option<usize>
    ensures none { IsNone result ↔ IsTrue (nat_lt 4096 (length env.now) || nat_lt 131072 (bytes_with_ends env.now)) }
    ensures bytes { IfSome result (λ bytes. bytes ≡ bytes_with_ends env.now) }
    ensures within { IfSome result (λ bytes. bytes ≤ 131072) }
    ensures few { IfSome result (λ bytes. nat_lt 4096 (length env.now) ≡ false) }
{
    if env.len() > MOST_TEXTS {
        return None;
    }
    bytes_within(env, MOST_BYTES)
}

/// Whether there are more arguments than a program may be given, or more bytes, `env_bytes` of the environment among them.
pub fn is_too_big(args: &Texts, env_bytes: usize) -> bool
    requires { env_bytes ≤ 131072 }
    ensures { result ≡ is_too_big env_bytes args.now }
{
    args.len() > MOST_TEXTS || bytes_within(args, MOST_BYTES - env_bytes).is_none()
}
