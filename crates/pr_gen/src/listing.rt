//! The case's tree, as a listing.
ghost use Rattle.std.specs.Prelude.{◌≡◌, ◌++◌, ◌<◌, ◌≤◌, ◌∷◌, [], codes, IfOk, OnOk};
ghost use Rattle.std.specs.Fmt.{decimal};
ghost use Rattle.kr_text.specs.Canonical.{bytes_field, line, octal};
ghost use Rattle.pr_gen.specs.Draws.{after_files, after_directories};
ghost use Rattle.pr_gen.specs.Listing.{head_lines, bound_lines, case_listing, directory_lines, directory_line, directory_path, elf_line, file_line, file_lines, file_path, target_lines, target_path};

use crate::draws::Draws;
use rv_asm::below::{Bytes, NoMemory};
use std::alloc::Global;

/// How many directories there are, how many files in each, and how many that are empty.
const DIRECTORIES: u32 = 16;

const FILES: u32 = 256;

const TARGETS: u32 = 256;

/// The user, and the guest's root directory.
const HEAD: &[u8] = b"user 1000 1000\nd 755 1000 1000 /\nd 755 1000 1000 /g\n";

/// Where the first binding goes, what it binds, where the second goes, and what it binds.
const BOUND: &[u8] =
    b"d 755 1000 1000 /g/d1/m\nd 755 1000 1000 /s\nd 755 1000 1000 /s/n\nd 755 1000 1000 /t\n";

const GUEST: &[u8] = b"x 755 1000 1000 /g/p\n";

/// Adds bytes.
fn put(out: &mut Vec<u8>, bytes: &[u8]) -> Result<(), NoMemory>
    ensures { OnOk result (out.new.items ≡ out.old.items ++ bytes.now) }
{
    out.extend_from_slice(bytes)?;
    Ok(())
}

/// Adds a file's bytes in hex digits, or `-` where there are none.
fn bytes_field(alloc: Global, out: &mut Vec<u8>, bytes: &[u8]) -> Result<(), NoMemory>
    ensures { OnOk result (out.new.items ≡ out.old.items ++ bytes_field bytes.now) }
{
    if bytes.is_empty() {
        return put(out, b"-");
    }
    let digits = hex::encode(alloc, bytes)?;
    put(out, digits.as_bytes())
}

/// Adds the line of a file in one of the directories.
fn file_line(alloc: Global, out: &mut Vec<u8>, d: u32, f: u32, bytes: &[u8]) -> Result<(), NoMemory>
    requires directory { d < 16 }
    requires file { f < 256 }
    ensures { OnOk result (out.new.items ≡ out.old.items ++ file_line (file_path d f) bytes.now) }
{
    let front = format!(in alloc; "f 644 1000 1000 /g/d{d}/f{f} ")?;
    put(out, front.as_bytes())?;
    bytes_field(alloc, out, bytes)?;
    put(out, b"\n")?;
    Ok(())
}

/// Adds the lines of the files of a directory.
#[tactic(auto, using(crate::proofs::StepLemmas::one_file_more))]
fn file_lines(alloc: Global, out: &mut Vec<u8>, d: u32, draws: &mut Draws) -> Result<(), NoMemory>
    requires { d < 16 }
    ensures lines { OnOk result (out.new.items ≡ out.old.items ++ file_lines d 256 draws.old.state) }
    ensures draws { OnOk result (draws.new.state ≡ after_files 256 draws.old.state) }
{
    for f in 0..FILES {
        let bytes = draws.file(alloc)?;
        file_line(alloc, out, d, f, bytes.as_slice())?;
    }
    Ok(())
}

/// Adds the line of a directory.
#[tactic(auto, using(crate::proofs::TextLemmas::directory_text))]
fn directory_line(alloc: Global, out: &mut Vec<u8>, d: u32) -> Result<(), NoMemory>
    requires { d < 16 }
    ensures { OnOk result (out.new.items ≡ out.old.items ++ directory_line (directory_path d)) }
{
    let line = format!(in alloc; "d 755 1000 1000 /g/d{d}\n")?;
    put(out, line.as_bytes())
}

/// Adds the lines of the directories, each with its files.
#[tactic(auto, using(crate::proofs::StepLemmas::one_directory_more))]
fn directory_lines(alloc: Global, out: &mut Vec<u8>, draws: &mut Draws) -> Result<(), NoMemory>
    ensures lines { OnOk result (out.new.items ≡ out.old.items ++ directory_lines 16 draws.old.state) }
    ensures draws { OnOk result (draws.new.state ≡ after_directories 16 draws.old.state) }
{
    for d in 0..DIRECTORIES {
        directory_line(alloc, out, d)?;
        file_lines(alloc, out, d, draws)?;
    }
    Ok(())
}

/// Adds the line of an empty file.
#[tactic(auto, using(crate::proofs::TextLemmas::target_text))]
fn target_line(alloc: Global, out: &mut Vec<u8>, k: u32) -> Result<(), NoMemory>
    requires { k < 256 }
    ensures { OnOk result (out.new.items ≡ out.old.items ++ file_line (target_path k) []) }
{
    let line = format!(in alloc; "f 644 1000 1000 /t/t{k} -\n")?;
    put(out, line.as_bytes())
}

/// Adds the lines of the empty files.
#[tactic(auto, using(crate::proofs::StepLemmas::one_target_more))]
fn target_lines(alloc: Global, out: &mut Vec<u8>) -> Result<(), NoMemory>
    ensures { OnOk result (out.new.items ≡ out.old.items ++ target_lines 256) }
{
    for k in 0..TARGETS {
        target_line(alloc, out, k)?;
    }
    Ok(())
}

/// The listing of a case, by the draws of its files.
pub(crate) fn case_listing(alloc: Global, draws: &mut Draws) -> Result<Bytes, NoMemory>
    ensures listing { IfOk result (λ listing. listing ≡ case_listing draws.old.state) }
    ensures draws { OnOk result (draws.new.state ≡ after_directories 16 draws.old.state) }
{
    let mut out = Vec::from_slice(alloc, HEAD)?;
    directory_lines(alloc, &mut out, draws)?;
    put(&mut out, BOUND)?;
    target_lines(alloc, &mut out)?;
    put(&mut out, GUEST)?;
    Ok(Bytes::from(out))
}
