//! The first stack.
ghost use Rattle.std.specs.Prelude.{◌≡◌, ◌+◌, ◌-◌, ◌*◌, ◌^◌, ◌<◌, ◌≤◌, ◌++◌, [], length, IfOk, OnOk};
ghost use Rattle.std.specs.Int.{to_le_bytes, w64};
ghost use Rattle.elf_load.specs.FirstStack.{aligned, pair_words, pairs_of, stack_bytes, stack_pointer, text_addresses, text_bytes, texts_at, texts_size, word_bytes, words_of, zeros};

use crate::arguments::text_at;
use elf_read::Plan;
use rv_mem::below::pr_base::{Bytes, NoMemory, PAGE_SIZE, Texts};
use std::alloc::Global;

/// Where the stack ends.
pub(crate) const STACK_TOP: u64 = 0x3F_FFFF_F000;

/// Where the random bytes stand.
const RANDOM_AT: u64 = STACK_TOP - 16;

/// The bytes that are called random.
const RANDOM_BYTES: [u8; 16] = [0, 1, 2, 3, 4, 5, 6, 7, 8, 9, 10, 11, 12, 13, 14, 15];

/// The words beside the addresses of the texts: the number of arguments, two ends and twelve pairs.
const OTHER_WORDS: usize = 27;

// The kinds of the auxiliary vector, under the names of the ABI and of getauxval(3).
const AT_NULL: u64 = 0;

const AT_PHDR: u64 = 3;

const AT_PHENT: u64 = 4;

const AT_PHNUM: u64 = 5;

const AT_PAGESZ: u64 = 6;

const AT_ENTRY: u64 = 9;

const AT_UID: u64 = 11;

const AT_EUID: u64 = 12;

const AT_GID: u64 = 13;

const AT_EGID: u64 = 14;

const AT_SECURE: u64 = 23;

const AT_RANDOM: u64 = 25;

/// An entry of the auxiliary vector.
#[derive(Clone, Copy)]
pub struct Pair {
    pub kind: u64,
    pub value: u64,
}

/// The stack pointer, and the bytes from there to the top of the stack.
#[derive(Drop)]
pub(crate) struct FirstStack {
    pub sp: u64,
    pub bytes: Bytes,
}

// The highest multiple of 16 that isn't above an address.
fn aligned(address: u64) -> u64
    ensures { result ≡ aligned address }
{
    address / 16 * 16
}

impl Pair {
    ghost use Rattle.std.specs.Prelude.{◌≡◌};

    fn new(kind: u64, value: u64) -> Pair
        ensures { result ≡ record { kind = kind; value = value } }
    {
        Pair { kind, value }
    }
}

// The auxiliary vector of a program with these real and effective user and group numbers.
fn pairs(plan: &Plan, ids: [u32; 4]) -> [Pair; 12]
    ensures { result ≡ pairs_of plan.now ids }
{
    let [uid, euid, gid, egid] = ids;
    [
        Pair::new(AT_PHDR, plan.phdr),
        Pair::new(AT_PHENT, 56),
        Pair::new(AT_PHNUM, u64::from(plan.phnum)),
        Pair::new(AT_PAGESZ, PAGE_SIZE),
        Pair::new(AT_ENTRY, plan.entry),
        Pair::new(AT_UID, u64::from(uid)),
        Pair::new(AT_EUID, u64::from(euid)),
        Pair::new(AT_GID, u64::from(gid)),
        Pair::new(AT_EGID, u64::from(egid)),
        Pair::new(AT_SECURE, 0),
        Pair::new(AT_RANDOM, RANDOM_AT),
        Pair::new(AT_NULL, 0),
    ]
}

fn push_word(bytes: &mut Bytes, word: u64) -> Result<(), NoMemory>
    ensures { OnOk result (bytes.new ≡ bytes.old ++ to_le_bytes w64 word) }
{
    bytes.append(&word.to_le_bytes())
}

fn push_pairs(bytes: &mut Bytes, pairs: &[Pair]) -> Result<(), NoMemory>
    ensures { OnOk result (bytes.new ≡ bytes.old ++ word_bytes (pair_words pairs.now)) }
{
    for pair in pairs {
        push_word(bytes, pair.kind)?;
        push_word(bytes, pair.value)?;
    }
    Ok(())
}

// Adds the addresses of texts of which the first stands at `at`, and gives the address behind them.
fn push_addresses(bytes: &mut Bytes, texts: &Texts, at: u64) -> Result<u64, NoMemory>
    requires { at + length (text_bytes texts.now) < 2 ^ 64 }
    ensures words { OnOk result (bytes.new ≡ bytes.old ++ word_bytes (text_addresses at texts.now)) }
    ensures end { IfOk result (λ end. end ≡ at + length (text_bytes texts.now)) }
{
    let mut next = at;
    for k in 0..texts.len() {
        push_word(bytes, next)?;
        next += text_at(texts, k).len() as u64 + 1;
    }
    Ok(next)
}

// Adds the words from the stack pointer up, where the first text stands at `at`.
fn push_words(
    bytes: &mut Bytes,
    pairs: &[Pair],
    args: &Texts,
    env: &Texts,
    at: u64,
) -> Result<(), NoMemory>
    requires first { at ≡ texts_at args.now env.now }
    requires fits { at + texts_size args.now env.now < 2 ^ 64 }
    ensures { OnOk result (bytes.new ≡ bytes.old ++ word_bytes (words_of pairs.now args.now env.now)) }
{
    push_word(bytes, args.len() as u64)?;
    let env_at = push_addresses(bytes, args, at)?;
    push_word(bytes, 0)?;
    push_addresses(bytes, env, env_at)?;
    push_word(bytes, 0)?;
    push_pairs(bytes, pairs)
}

fn push_texts(bytes: &mut Bytes, texts: &Texts) -> Result<(), NoMemory>
    ensures { OnOk result (bytes.new ≡ bytes.old ++ text_bytes texts.now) }
{
    for k in 0..texts.len() {
        bytes.append(text_at(texts, k))?;
        bytes.append(&[0])?;
    }
    Ok(())
}

// Fewer than 16 zeros, by which what is aligned ends below what stands above it.
fn push_zeros(bytes: &mut Bytes, count: u64) -> Result<(), NoMemory>
    requires { count < 16 }
    ensures { OnOk result (bytes.new ≡ bytes.old ++ zeros count) }
{
    bytes.append(&[0; 16][..count as usize])
}

impl FirstStack {
    /// The stack of a program with these arguments and this environment, which have `size` bytes.
    pub(crate) fn new(
        alloc: Global,
        plan: &Plan,
        args: &Texts,
        env: &Texts,
        size: usize,
        ids: [u32; 4],
    ) -> Result<FirstStack, NoMemory>
        requires few_args { length args.now ≤ 4096 }
        requires few_env { length env.now ≤ 4096 }
        requires size { size ≡ texts_size args.now env.now }
        requires within { size ≤ 131072 }
        ensures sp { IfOk result (λ stack. stack.sp ≡ stack_pointer args.now env.now) }
        ensures placed { IfOk result (λ stack. 0x3F_FFEF_F000 ≤ stack.sp) }
        ensures ends { IfOk result (λ stack. stack.sp + length stack.bytes ≡ STACK_TOP) }
        ensures bytes { IfOk result (λ stack. stack.bytes ≡ stack_bytes (pairs_of plan.now ids) args.now env.now) }
    {
        let texts_at = aligned(RANDOM_AT - size as u64);
        let words_size = 8 * (args.len() + env.len() + OTHER_WORDS) as u64;
        let sp = aligned(texts_at - words_size);
        let mut bytes = Bytes::new(alloc);
        push_words(&mut bytes, &pairs(plan, ids), args, env, texts_at)?;
        push_zeros(&mut bytes, texts_at - (sp + words_size))?;
        push_texts(&mut bytes, args)?;
        push_texts(&mut bytes, env)?;
        push_zeros(&mut bytes, RANDOM_AT - (texts_at + size as u64))?;
        bytes.append(&RANDOM_BYTES)?;
        Ok(FirstStack { sp, bytes })
    }
}
