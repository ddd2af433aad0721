//! The public call: words, a listing, an ELF file and an input make a run, and its report is put to three sinks; or words ask for a generated
//! case, which both machines run. The program hands it the files that its own words name.
//!
//! What is proved, with the clause or the law that carries it:
//!
//! The public call. `proot` carries, for all words, sources and sinks, where the words are fewer than 2^32, the clauses below. They speak of the
//! bytes that the sources gave in this call and of those that the sinks got in it (`Passed`), whatever else these tell, so they hold of the files
//! of the system, too. The file forms tell what the calls of the system gave and took (pr_io): what the system does with bytes that it took, and
//! what it would have given, is its own matter.
//!
//! `opening`: what the bytes that were given open is told (`TellsOpening`). Of a run the report of it is answered and put, or want of memory or a
//! fault ends it earlier: after Ended, Deadlock and Spent the whole report was put, whatever failed; where a sink fails or memory is wanting, the
//! sinks have what was put before, with a prefix of what failed (`IsReported`). Of a refusal the refusal is answered, or a fault of a source or
//! want of memory, and nothing is put (`IsRefused`).
//!
//! `refusal`, `words`: a refusal that is answered is that of the opening, and of the words.
//!
//! `gives`, `ends`: what each source gave, and that each whose stage was passed was read to its end; one that is too long gave its limit and one
//! byte (`IsReadThrough`).
//!
//! `out_untouched`, `err_untouched`, `left_untouched`: nothing is put before the run.
//!
//! `out_fault` to `left_fault`, `sinks`: a sink that fails is named as written to, and its count rose in this call; `out_leaves`, `err_leaves`,
//! `no_memory_left`: no listing was put.
//!
//! `causes`, `before_sources` to `unlisted`: the causes of faults of sources, and what isn't touched; `case_sources`: with `--case` none is;
//! `tree_takes` to `input_takes`: however it ends, a source that counts its calls was asked at most once more than its limit has bytes.
//!
//! `complete`: where no count rose, the opening's refusal comes, or the answer of its run, or want of memory.
//!
//! With `--calm` the line is that of the first calm rule that the run broke, since it is part of the report.
//!
//! `headline`: where words ask for no generated case, not for mounts and not for single steps, and what the same words and bytes open over mounts (`over_mounts`) is
//! calm (`OpensCalmly`), that is told, as what is opened is: the report of a run over mounts that breaks no calm rule; or the refusal, of bindings
//! that don't settle or of a start whose walks break none.
//!
//! `loose`: where words with `--loose` open a loose run that is quiet, and the run over mounts of the same words and bytes by the slots of its turns
//! (`image_of`, `mounted_by`) breaks no calm rule, its start included (`OpensQuietly`), what is answered is the answer of that run, or want of memory or a
//! fault ends it earlier; and after Ended, Deadlock and Spent all bytes of its turns were put, in their order, then the line that the run was quiet, and its
//! listing, and both trees have the same nodes (`TellsImage`). However it ends, what the sinks got begins these bytes. How the bytes are parted among steps
//! isn't compared.
//!
//! Where sources tell what they have left, all this holds of the opening of those bytes (`promises_hold_of_told`).
//!
//! Only tested, or not shown: That a run with ample memory doesn't answer NoMemory: `rows`; that each object's failing call gives the answer that
//! names it: `top_tests`.
#![tactic(auto)]

pub mod below;
pub mod laws;
mod program;
mod top;

pub use law_loosely::below::law_machines::below::{Answer, Which};
pub use program::run;
pub use top::proot;
