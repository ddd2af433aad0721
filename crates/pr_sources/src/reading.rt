//! The sources, read in their order.
ghost use Rattle.std.specs.Prelude.{◌≡◌, ◌⊎◌, ◌^◌, ℕ, List, false, IsTrue, IsSome, IfErr, IfOk, OnOk, [], Ok, Err};
ghost use Rattle.std.specs.Option.{option_copied, unwrap_or};
ghost use Rattle.pr_io.specs.Drawn.{Drawn, IsDrawn, IsWhole, drawn, gave};
ghost use Rattle.pr_words.specs.Sound.{AreSound};
ghost use Rattle.kr_start.specs.kr_text.Reading.{wants_elf};
ghost use Rattle.kr_start.specs.kr_tree.Lawful.{AreBytes, IsKept};
ghost use Rattle.kr_start.specs.Ready.{IsOfListing};
ghost use Rattle.pr_sources.specs.Asking.{IsUnlessNoMemory};
ghost use Rattle.pr_sources.specs.declared.answer.Which.TheVariants.{Elf};
ghost use Rattle.pr_sources.specs.Reading.{AreDrawn, EndsBeforeElf, EndsBeforeInput, IsListed, IsOfSources, IsReadAs, IsReadUpTo, ReadHasCause, WantsElf, file_limit, listed, read_asked, read_file, read_listing};
ghost use Rattle.pr_sources.specs.Within.{ComesTo, IsAskedWithin, IsReadRefusal};

use crate::within::read_within;
use crate::{Answer, Which};
use kr_start::below::{ListFault, Tree, User, trees_are_kept, wants_elf};
use pr_io::Source;
use pr_io::below::Bytes;
use pr_words::Options;
use std::alloc::Global;

/// How many bytes a listing has at most: 64 MiB.
const TREE_LIMIT: usize = 67_108_864;

/// How many bytes an ELF file has at most, and the input: 16 MiB.
const FILE_LIMIT: usize = 16_777_216;

/// What is asked of a run: the options, the host's tree and its user, and the input.
#[derive(Drop)]
pub struct Asked {
    pub options: Options,
    pub tree: Tree,
    pub user: User,
    pub input: Bytes,
}

/// Reads the ELF file, where the listing names it. It isn't touched else, and no bytes are answered.
fn read_file<E: Source>(alloc: Global, elf: &mut E, listing: &[u8]) -> Result<Option<Bytes>, Answer>
    ensures told { IfOk result (λ file. ComesTo (read_file (gave (drawn E.Source elf.old elf.new)) listing.now) (Ok (unwrap_or file []))) }
    ensures given { IfOk result (λ file. IsTrue (wants_elf listing.now) → IsSome file) }
    ensures refused { IfErr result (λ answer. ComesTo {A = List ℕ} (read_file (gave (drawn E.Source elf.old elf.new)) listing.now) (Err answer)) }
    ensures wanted { IfErr result (λ answer. IsTrue (wants_elf listing.now) × IsReadRefusal file_limit Elf (drawn E.Source elf.old elf.new) answer) }
    ensures untouched { wants_elf listing.now ≡ false → elf.new ≡ elf.old }
    ensures gives { IsDrawn (drawn E.Source elf.old elf.new) }
    ensures end { IsTrue (wants_elf listing.now) → OnOk result (IsWhole (drawn E.Source elf.old elf.new)) }
    ensures takes { IsAskedWithin (2 ^ 24) (E.takes elf.old) (E.takes elf.new) }
{
    if !wants_elf(listing) {
        return Ok(None);
    }
    let file = read_within(alloc, elf, FILE_LIMIT, Which::Elf)?;
    Ok(Some(file))
}

/// The tree and the user of a listing, or its first bad line.
fn list(alloc: Global, listing: &[u8], file: Option<&[u8]>) -> Result<(Tree, User), Answer>
    requires { IsTrue (wants_elf listing.now) → IsSome file }
    ensures listing { IsUnlessNoMemory (listed (unwrap_or (option_copied file.entry) []) listing.now) result }
    ensures read { IfOk result (λ read. IsOfListing read.0 read.1) }
{
    match kr_start::below::read(alloc, listing, file) {
        Ok(read) => Ok(read),
        Err(ListFault::Bad { line, why }) => Err(Answer::TreeBad { line, why }),
        Err(ListFault::NoMemory) => Err(Answer::NoMemory),
    }
}

/// Reads the listing, and the ELF file where it names it, and makes the tree.
fn read_listing<T: Source, E: Source>(
    alloc: Global,
    tree: &mut T,
    elf: &mut E,
) -> Result<(Tree, User), Answer>
    ensures told { ComesTo (read_listing (gave (drawn T.Source tree.old tree.new)) (gave (drawn E.Source elf.old elf.new))) result }
    ensures read { IfOk result (λ read. IsOfListing read.0 read.1) }
    ensures causes { IfErr result (λ answer. (input : Drawn) → ReadHasCause (record { tree = drawn T.Source tree.old tree.new; elf = drawn E.Source elf.old elf.new; input = input }) answer) }
    ensures unwanted { (elf.new ≡ elf.old) ⊎ WantsElf (drawn T.Source tree.old tree.new) }
    ensures before_elf { IfErr result (λ answer. EndsBeforeElf answer → elf.new ≡ elf.old) }
    ensures tree_gives { IsDrawn (drawn T.Source tree.old tree.new) }
    ensures elf_gives { IsDrawn (drawn E.Source elf.old elf.new) }
    ensures all { OnOk result (IsListed (drawn T.Source tree.old tree.new) (drawn E.Source elf.old elf.new)) }
    ensures ends { IfErr result (λ answer. (input : Drawn) → IsReadUpTo (record { tree = drawn T.Source tree.old tree.new; elf = drawn E.Source elf.old elf.new; input = input }) answer) }
    ensures tree_takes { IsAskedWithin (2 ^ 26) (T.takes tree.old) (T.takes tree.new) }
    ensures elf_takes { IsAskedWithin (2 ^ 24) (E.takes elf.old) (E.takes elf.new) }
{
    let listing = read_within(alloc, tree, TREE_LIMIT, Which::Tree)?;
    let file = read_file(alloc, elf, listing.as_slice())?;
    match &file {
        Some(file) => list(alloc, listing.as_slice(), Some(file.as_slice())),
        None => list(alloc, listing.as_slice(), None),
    }
}

/// That bytes are below 256, which a proof is told of a slice alone.
fn are_bytes(bytes: &[u8])
    ensures { AreBytes bytes.now }
{}

/// Reads the listing, the ELF file where the listing names it, and the input, in this order and each to its end. The first that is refused is
/// answered: a source that is too long, or the listing's first bad line. What isn't come to isn't touched.
pub fn read<T: Source, E: Source, I: Source>(
    alloc: Global,
    options: Options,
    tree: &mut T,
    elf: &mut E,
    input: &mut I,
) -> Result<Asked, Answer>
    requires { AreSound options }
    ensures told { ComesTo (read_asked options (gave (drawn T.Source tree.old tree.new)) (gave (drawn E.Source elf.old elf.new)) (gave (drawn I.Source input.old input.new))) result }
    ensures kinds { IfErr result IsOfSources }
    ensures causes { IfErr result (ReadHasCause (record { tree = drawn T.Source tree.old tree.new; elf = drawn E.Source elf.old elf.new; input = drawn I.Source input.old input.new })) }
    ensures sound { IfOk result (λ asked. AreSound asked.options) }
    ensures listing { IfOk result (λ asked. IsOfListing asked.tree asked.user) }
    ensures kept { IfOk result (λ asked. IsKept asked.tree) }
    ensures bytes { IfOk result (λ asked. AreBytes asked.input) }
    ensures before_elf { IfErr result (λ answer. EndsBeforeElf answer → elf.new ≡ elf.old) }
    ensures unwanted { (elf.new ≡ elf.old) ⊎ WantsElf (drawn T.Source tree.old tree.new) }
    ensures before_input { IfErr result (λ answer. EndsBeforeInput answer → input.new ≡ input.old) }
    ensures unlisted { (input.new ≡ input.old) ⊎ IsListed (drawn T.Source tree.old tree.new) (drawn E.Source elf.old elf.new) }
    ensures gives { AreDrawn (record { tree = drawn T.Source tree.old tree.new; elf = drawn E.Source elf.old elf.new; input = drawn I.Source input.old input.new }) }
    ensures ends { IsReadAs (record { tree = drawn T.Source tree.old tree.new; elf = drawn E.Source elf.old elf.new; input = drawn I.Source input.old input.new }) result }
    ensures tree_takes { IsAskedWithin (2 ^ 26) (T.takes tree.old) (T.takes tree.new) }
    ensures elf_takes { IsAskedWithin (2 ^ 24) (E.takes elf.old) (E.takes elf.new) }
    ensures input_takes { IsAskedWithin (2 ^ 24) (I.takes input.old) (I.takes input.new) }
{
    let (tree, user) = read_listing(alloc, tree, elf)?;
    let input = read_within(alloc, input, FILE_LIMIT, Which::Input)?;
    trees_are_kept(&tree);
    are_bytes(input.as_slice());
    Ok(Asked {
        options,
        tree,
        user,
        input,
    })
}
