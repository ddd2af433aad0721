//! The top call.
ghost use Rattle.std.specs.Prelude.{◌≡◌, ◌⊎◌, ◌<◌, ◌^◌, Err, length, map};
ghost use Rattle.std.specs.String.{string_bytes};
ghost use Rattle.law_loosely.specs.law_machines.pr_io.Drawn.{drawn};
ghost use Rattle.law_loosely.specs.law_machines.pr_io.Faults.{Rose};
ghost use Rattle.law_loosely.specs.law_machines.pr_io.Moves.{Stays};
ghost use Rattle.law_loosely.specs.law_machines.pr_sources.declared.answer.Which.TheVariants.{Tree, Elf, Input, Out, Err as ErrSink, Left};
ghost use Rattle.law_loosely.specs.law_machines.pr_sources.Asking.{asked};
ghost use Rattle.law_loosely.specs.law_machines.pr_sources.Reading.{AreDrawn, AsksCase, EndsBeforeElf, EndsBeforeInput, HasCause, IsListed, IsOfWords, IsRefusal, ReadsSources, WantsElf};
ghost use Rattle.law_loosely.specs.law_machines.pr_sources.Within.{IsAskedWithin};
ghost use Rattle.pr_call.specs.Headline.{Headline};
ghost use Rattle.pr_call.specs.LooseHeadline.{LooseHeadline};
ghost use Rattle.pr_call.specs.Promise.{ComesBeforeRun, IsComplete, IsReadThrough, IsTold, Refuses, opened_by, passed};

use law_loosely::below::law_machines::below::{Answer, Sink, Source, open};
use law_loosely::below::law_machines::openings;
use law_loosely::laws::loose_words_agree;
use std::alloc::Global;

/// Reads the words, a listing of the host's tree, an ELF file where the listing names it, and an input; settles the bindings that the words
/// ask for, starts the command over them, and runs it, turn after turn. What each turn puts out goes to `out` and `err`, with `--calm` a last
/// line on `err` tells if the run was calm, and last the canonical listing of the tree that is left goes to `left`.
///
/// With `--loose` the command runs step by step, the bytes of each step go to `out` and `err`, and a last line on `err` tells if the run was quiet.
///
/// With `--case` it reads no source, and runs both machines on the generated case of that number. It puts a summary of the watched run to
/// `out`, the listing of the tree that this run left to `left`, and answers with status 0 exactly where both outcomes are equal, else 1.
///
/// The opening, the run and the report are definitions of their own. The opening is that of the words and of the bytes that the sources gave in
/// this call, whatever they have left, and what is said of a sink is said of the bytes that it got in this call.
pub fn proot<T: Source, E: Source, I: Source, O: Sink, R: Sink, L: Sink>(
    alloc: Global,
    words: &[String],
    tree: &mut T,
    elf: &mut E,
    input: &mut I,
    out: &mut O,
    err: &mut R,
    left: &mut L,
) -> Answer
    requires { length words.now < 2 ^ 32 }

    // The headline: without `--native`, `--case` and `--loose`, what is answered and put is what the same words and bytes open over mounts, where that is calm:
    // the report of a run that breaks no calm rule, or a refusal, of bindings that don't settle or of a start whose walks break none.
    ensures headline { Headline (map string_bytes words.now) (passed T.Source tree.old tree.new E.Source elf.old elf.new I.Source input.old input.new
        O.Sink out.old out.new R.Sink err.old err.new L.Sink left.old left.new) result }

    // The claim on `--loose`: where the loose run that is opened is quiet, and the run over mounts of the same words by the slots of its turns breaks no calm
    // rule, what is answered and put is that of this run, but for how the bytes are parted, and the nodes of both trees are the same; want of memory or a
    // fault may end it earlier, after a prefix of these bytes.
    ensures loose { LooseHeadline (map string_bytes words.now) (passed T.Source tree.old tree.new E.Source elf.old elf.new I.Source input.old input.new
        O.Sink out.old out.new R.Sink err.old err.new L.Sink left.old left.new) result }

    // What is answered and put: the opening's refusal, or the report of its run; want of memory or a fault may end it earlier, after a part of it.
    ensures opening { IsTold (map string_bytes words.now) (passed T.Source tree.old tree.new E.Source elf.old elf.new I.Source input.old input.new
        O.Sink out.old out.new R.Sink err.old err.new L.Sink left.old left.new) result }
    ensures refusal { Refuses result →
        opened_by (map string_bytes words.now) (record { tree = drawn T.Source tree.old tree.new; elf = drawn E.Source elf.old elf.new; input = drawn I.Source input.old input.new }) ≡ Err result }
    ensures words { IsOfWords result → asked (map string_bytes words.now) ≡ Err result }

    // What a source gave came behind what it had given, and one that tells what it has left lost the same. Each whose stage was passed was read to
    // its end, and one that is too long gave its limit and one byte.
    ensures gives { AreDrawn (record { tree = drawn T.Source tree.old tree.new; elf = drawn E.Source elf.old elf.new; input = drawn I.Source input.old input.new }) }
    ensures ends { ReadsSources (asked (map string_bytes words.now)) → IsReadThrough (passed T.Source tree.old tree.new E.Source elf.old elf.new I.Source input.old input.new
        O.Sink out.old out.new R.Sink err.old err.new L.Sink left.old left.new) result }

    // Nothing is put before the run.
    ensures out_untouched { ComesBeforeRun result → Stays (O.got out.old) (O.got out.new) }
    ensures err_untouched { ComesBeforeRun result → Stays (R.got err.old) (R.got err.new) }
    ensures left_untouched { ComesBeforeRun result → Stays (L.got left.old) (L.got left.new) }

    // A fault of a sink, with its cause, and the listing after it.
    ensures out_fault { result ≡ Answer.WriteFault Out → Rose (O.faults out.old) (O.faults out.new) }
    ensures out_leaves { result ≡ Answer.WriteFault Out → Stays (L.got left.old) (L.got left.new) }
    ensures err_fault { result ≡ Answer.WriteFault ErrSink → Rose (R.faults err.old) (R.faults err.new) }
    ensures err_leaves { result ≡ Answer.WriteFault ErrSink → Stays (L.got left.old) (L.got left.new) }
    ensures left_fault { result ≡ Answer.WriteFault Left → Rose (L.faults left.old) (L.faults left.new) }
    ensures sinks { (result ≡ Answer.WriteFault Tree → ⊥) × (result ≡ Answer.WriteFault Elf → ⊥) × (result ≡ Answer.WriteFault Input → ⊥) }

    // Want of memory leaves no listing.
    ensures no_memory_left { result ≡ Answer.NoMemory → Stays (L.got left.old) (L.got left.new) }

    // A fault of a source: its count rose, and what comes before it was read; a case is not asked for.
    ensures causes { HasCause (asked (map string_bytes words.now)) (record { tree = drawn T.Source tree.old tree.new; elf = drawn E.Source elf.old elf.new; input = drawn I.Source input.old input.new })
        result }

    // A source that isn't come to isn't touched: none is for words that are refused and for a generated case, the ELF file only where the listing
    // was read to its end and names it, and the input only where what comes before it was read to its end and is no bad listing.
    ensures before_sources { IsRefusal (asked (map string_bytes words.now)) → (tree.new ≡ tree.old) × (elf.new ≡ elf.old) × (input.new ≡ input.old) }
    ensures case_sources { AsksCase (asked (map string_bytes words.now)) → (tree.new ≡ tree.old) × (elf.new ≡ elf.old) × (input.new ≡ input.old) }
    ensures before_elf { EndsBeforeElf result → elf.new ≡ elf.old }
    ensures unwanted { (elf.new ≡ elf.old) ⊎ WantsElf (drawn T.Source tree.old tree.new) }
    ensures before_input { EndsBeforeInput result → input.new ≡ input.old }
    ensures unlisted { (input.new ≡ input.old) ⊎ IsListed (drawn T.Source tree.old tree.new) (drawn E.Source elf.old elf.new) }

    // However it ends, no source was asked more often than its limit has bytes, and once more.
    ensures tree_takes { IsAskedWithin (2 ^ 26) (T.takes tree.old) (T.takes tree.new) }
    ensures elf_takes { IsAskedWithin (2 ^ 24) (E.takes elf.old) (E.takes elf.new) }
    ensures input_takes { IsAskedWithin (2 ^ 24) (I.takes input.old) (I.takes input.new) }

    // Where no count of faults rose, the opening's refusal or the answer of its run comes, want of memory aside.
    ensures complete { IsComplete (map string_bytes words.now) (passed T.Source tree.old tree.new E.Source elf.old elf.new I.Source input.old input.new
        O.Sink out.old out.new R.Sink err.old err.new L.Sink left.old left.new) result }
{
    openings::openings_agree();
    loose_words_agree();
    match open(alloc, words, tree, elf, input) {
        Ok(mut opened) => opened.report(alloc, out, err, left),
        Err(answer) => answer,
    }
}
