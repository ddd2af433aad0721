//! The data of a probe.
ghost use Rattle.std.specs.Prelude.{◌≡◌, ◌+◌, ◌*◌, ◌≤◌, ◌^◌, length, IfOk, OnOk};
ghost use Rattle.pr_gen.specs.Steps.{text_room as room_of_text, texts_room, list_room, room_of, room_in, step_room, room};

use crate::constants::ZEROS;
use crate::steps::{Arg, ProbeStep, text_room};
use rv_asm::below::Texts;
use std::alloc::{AllocError, Global};

// Adds a text, and zeros behind it.
fn put_text(out: &mut Vec<u8>, text: &[u8]) -> Result<(), AllocError>
    ensures { OnOk result (length out.new.items ≡ length out.old.items + room_of_text text.now) }
{
    out.extend_from_slice(text)?;
    out.extend_from_slice(&[0; 8][text.len() % 8..])?;
    Ok(())
}

// Adds the texts of a list.
fn put_texts(out: &mut Vec<u8>, texts: &Texts) -> Result<(), AllocError>
    requires { texts_room texts.now ≤ 2 ^ 33 }
    ensures { OnOk result (length out.new.items ≡ length out.old.items + texts_room texts.now) }
{
    let mut k = 0;
    while let Some(text) = texts.at(k) {
        put_text(out, text)?;
        k += 1;
    }
    Ok(())
}

// Adds an address.
fn put_address(out: &mut Vec<u8>, at: u64) -> Result<(), AllocError>
    ensures { OnOk result (length out.new.items ≡ length out.old.items + 8) }
{
    out.extend_from_slice(&at.to_le_bytes())?;
    Ok(())
}

// Adds the addresses of the texts of a list, which stand one behind another from `at` on, and a zero.
fn put_addresses(out: &mut Vec<u8>, texts: &Texts, at: u64) -> Result<(), AllocError>
    requires { at + texts_room texts.now ≤ 2 ^ 33 }
    ensures { OnOk result (length out.new.items ≡ length out.old.items + 8 * (length texts.now + 1)) }
{
    let mut at = at;
    let mut k = 0;
    while let Some(text) = texts.at(k) {
        put_address(out, at)?;
        at += text_room(text);
        k += 1;
    }
    put_address(out, 0)
}

// Adds what an argument needs. The data begins in memory at `base`.
fn put_arg(out: &mut Vec<u8>, arg: &Arg, base: u64) -> Result<(), AllocError>
    requires { base + length out.old.items + room_of arg.now ≤ 2 ^ 32 }
    ensures { OnOk result (length out.new.items ≡ length out.old.items + room_of arg.now) }
{
    match arg {
        Arg::Text(text) => put_text(out, text.as_slice()),
        Arg::List(texts) if texts.is_empty() => Ok(()),
        Arg::List(texts) => {
            let first = base + out.len() as u64 + 8 * (texts.len() as u64 + 1);
            put_addresses(out, texts, first)?;
            put_texts(out, texts)
        }
        Arg::Num(_) | Arg::Buf | Arg::Answer(_) => Ok(()),
    }
}

// Adds what the arguments of a call need.
fn put_args(out: &mut Vec<u8>, args: &[Arg], base: u64) -> Result<(), AllocError>
    requires { base + length out.old.items + room_in args.now ≤ 2 ^ 32 }
    ensures { OnOk result (length out.new.items ≡ length out.old.items + room_in args.now) }
{
    for arg in args {
        put_arg(out, arg, base)?;
    }
    Ok(())
}

// Adds what a step needs.
fn put_step(out: &mut Vec<u8>, step: &ProbeStep, base: u64) -> Result<(), AllocError>
    requires { base + length out.old.items + step_room step.now ≤ 2 ^ 32 }
    ensures { OnOk result (length out.new.items ≡ length out.old.items + step_room step.now) }
{
    match step {
        ProbeStep::Call { args, .. } => put_args(out, args, base),
        ProbeStep::SetSp(_) => Ok(()),
    }
}

/// The data of a probe, which begins in memory at `base`.
pub(crate) fn data_of(alloc: Global, steps: &[ProbeStep], base: u64) -> Result<Vec<u8>, AllocError>
    requires { base + 6184 + room steps.now ≤ 2 ^ 32 }
    ensures { IfOk result (λ made. length made.items ≡ 6184 + room steps.now) }
{
    let mut data = vec![in alloc; 0; ZEROS]?;
    for step in steps {
        put_step(&mut data, step, base)?;
    }
    Ok(data)
}
