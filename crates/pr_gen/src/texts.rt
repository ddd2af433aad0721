//! The guest's data: the texts of its rounds.
ghost use Rattle.std.specs.Prelude.{◌≡◌, ◌+◌, ◌*◌, ◌/◌, ◌<◌, ◌≤◌, ◌^◌, ◌++◌, length, IfOk, OnOk};
ghost use Rattle.std.specs.String.{string_bytes};
ghost use Rattle.pr_gen.specs.Draws.{after};
ghost use Rattle.pr_gen.specs.Guest.{padded, round_at, round_texts, rounds};

use crate::draws::Draws;
use rv_asm::below::NoMemory;
use std::alloc::Global;

/// How many bytes a text has, with the zeros behind it.
const TEXT: usize = 24;

/// How many rounds a process makes, and how many all of them.
const ROUNDS: u64 = 64;

const ALL_ROUNDS: u64 = 256;

/// How many directories a process has, and how many files each of these.
const DIRECTORIES: u64 = 4;

const FILES: u64 = 256;

/// Adds a text, with zeros behind it.
fn put_text(out: &mut Vec<u8>, text: String) -> Result<(), NoMemory>
    ensures text { OnOk result (out.new.items ≡ out.old.items ++ padded (string_bytes text)) }
    ensures size { OnOk result (length out.new.items ≤ length out.old.items + (length (string_bytes text) + 24)) }
{
    let mut text = text.into_bytes();
    if text.len() < TEXT {
        text.resize(TEXT, 0)?;
    }
    out.extend_from_slice(text.as_slice())?;
    Ok(())
}

/// Adds the texts of a round.
fn put_round(alloc: Global, out: &mut Vec<u8>, d: u64, j: u64, b: u64) -> Result<(), NoMemory>
    ensures texts { OnOk result (out.new.items ≡ out.old.items ++ round_texts d j b) }
    ensures size { OnOk result (length out.new.items ≤ length out.old.items + 400) }
{
    put_text(out, format!(in alloc; "/d{d}/f{b}")?)?;
    put_text(out, format!(in alloc; "/d{d}/r{j}")?)?;
    put_text(out, format!(in alloc; "/d1/m/n/../n/t{b}")?)?;
    Ok(())
}

/// The texts of all rounds, by their draws.
#[tactic(auto, using(crate::proofs::StepLemmas::one_round_more))]
pub(crate) fn guest_data(alloc: Global, draws: Draws) -> Result<Vec<u8>, NoMemory>
    ensures texts { IfOk result (λ texts. texts.items ≡ rounds 256 draws.state) }
    ensures size { IfOk result (λ texts. length texts.items ≤ 2 ^ 20) }
{
    let mut draws = draws;
    let mut out = Vec::new(alloc);
    for k in 0..ALL_ROUNDS {
        let d = DIRECTORIES * (k / ROUNDS) + draws.draw(DIRECTORIES);
        let b = draws.draw(FILES);
        put_round(alloc, &mut out, d, k % ROUNDS, b)?;
    }
    Ok(out)
}
