//! How much a program may be given on its first stack.
ghost use Rattle.std.specs.Prelude.{◌≡◌, ◌+◌, ◌-◌, ◌<◌, ◌≤◌, ◌∷◌, ◌↔◌, drop, length, IfSome, IsNone, IsTrue};
ghost use Rattle.std.specs.Option.{SomeIff};
ghost use Rattle.elf_load.specs.FirstStack.{exceeds_arguments, text_bytes, texts_size};

use rv_mem::below::pr_base::Texts;
use rv_mem::below::pr_base::limits::{MOST_BYTES, MOST_TEXTS};

/// The text at a place that is there.
pub(crate) fn text_at(texts: &Texts, k: usize) -> &[u8]
    requires { k < length texts.now }
    ensures { drop k texts.now ≡ result.now ∷ drop (k + 1) texts.now }
{
    texts.at(k).unwrap()
}

// How many bytes the texts have with their ends. `None` where there are more than `most`.
fn size_within(texts: &Texts, most: usize) -> Option<usize>
    ensures { SomeIff result (length (text_bytes texts.now) ≤ most) (length (text_bytes texts.now)) }
{
    let mut left = most;
    for k in 0..texts.len() {
        let text = text_at(texts, k);
        if text.len() >= left {
            return None;
        }
        left -= text.len() + 1;
    }
    Some(most - left)
}

/// How many bytes arguments and environment have together, with their ends. `None` where there are
/// more than a program may be given.
pub(crate) fn size_of(args: &Texts, env: &Texts) -> Option<usize>
    ensures none { IsNone result ↔ IsTrue (exceeds_arguments args.now env.now) }
    ensures size { IfSome result (λ size. size ≡ texts_size args.now env.now) }
    ensures within { IfSome result (λ size. size ≤ 131072) }
    ensures few_args { IfSome result (λ _. length args.now ≤ 4096) }
    ensures few_env { IfSome result (λ _. length env.now ≤ 4096) }
{
    if args.len() > MOST_TEXTS || env.len() > MOST_TEXTS {
        return None;
    }
    let args_size = size_within(args, MOST_BYTES)?;
    let env_size = size_within(env, MOST_BYTES - args_size)?;
    Some(args_size + env_size)
}
