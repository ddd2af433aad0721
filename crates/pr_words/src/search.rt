//! Where a word without a slash is looked for.
ghost use Rattle.std.specs.Prelude.{◌≡◌, ◌==◌, IfOk, map};
ghost use Rattle.std.specs.List.{slice_split};
ghost use Rattle.std.specs.Option.{option_copied};
ghost use Rattle.pr_words.specs.Command.{candidate, directories, path_of, path_text};

use pr_base::{Bytes, NoMemory, Texts};
use std::alloc::{AllocError, Global};

/// The text behind `PATH=`, where this is such a variable.
fn path_text(variable: &[u8]) -> Option<&[u8]>
    ensures { option_copied result ≡ path_text variable.now }
{
    variable.strip_prefix(b"PATH=")
}

/// The text of PATH in an environment.
pub fn path_of(env: &Texts) -> Option<&[u8]>
    ensures { option_copied result ≡ path_of env.now }
{
    for k in 0..env.len() {
        let variable = env.at(k)?;
        if let Some(text) = path_text(variable) {
            return Some(text);
        }
    }
    None
}

/// The directories between the colons of a text.
fn split_at_colons(alloc: Global, text: &[u8]) -> Result<Vec<&[u8]>, AllocError>
    ensures { IfOk result (λ dirs. map (λ dir. dir.now) dirs.items ≡ slice_split (λ b. b == 58) text.now) }
{
    text.split(|byte| *byte == b':').collect(alloc)
}

/// The directories in which a command is searched: those of PATH, and without it `/bin` and `/usr/bin`.
pub fn directories(alloc: Global, path: Option<&[u8]>) -> Result<Vec<&[u8]>, NoMemory>
    ensures { IfOk result (λ dirs. map (λ dir. dir.now) dirs.items ≡ directories (option_copied path.entry)) }
{
    match path {
        Some(text) => Ok(split_at_colons(alloc, text)?),
        None => {
            let mut dirs = Vec::new(alloc);
            dirs.push(b"/bin".as_slice())?;
            dirs.push(b"/usr/bin".as_slice())?;
            Ok(dirs)
        }
    }
}

/// The path of a command in a directory: the command alone where the directory is empty, which stands for the working directory.
pub fn candidate(alloc: Global, dir: &[u8], word: &[u8]) -> Result<Bytes, NoMemory>
    ensures { IfOk result (λ path. path ≡ candidate dir.now word.now) }
{
    let mut path = Bytes::copy(alloc, dir)?;
    if !dir.is_empty() {
        path.append(b"/")?;
    }
    path.append(word)?;
    Ok(path)
}
