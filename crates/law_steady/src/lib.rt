//! Walks that look up no name in the process directory, the *steady* ones: where the tree keeps its shape, they stay what they are.
//!
//! What is proved, with the law that carries it:
//!
//! Laws alone, and no code. The shape of a tree is what can be reached from its root: names, inode numbers, kinds, texts of links, modes, owners
//! and groups, and neither the bytes of files nor what the process directory holds.
//!
//! A host walk that is steady is the same, look by look, in every state with that shape and that user, whoever asks, and steady there
//! (`steady_walks_last`); so is what a tracer is told of the host path: its kind, which is no link of the process directory, the text of a link,
//! and the first bytes where the bytes of files stay too (`steady_peeks_last`).
//!
//! So a key, which is a base, a path and a mode, whose text walk looks at steady host paths alone has the same walk and the same answer of a
//! tracer's walker in every such state, whatever the tags, and stays such a key (`steady_keys_last`; `text_walks_agree` of pt_canon).
//!
//! A directory has the same host name in trees of one shape, and so has what a slot holds as long as it is a directory in both or in neither
//! (`host_names_last`).
//!
//! They rest on two laws of any walk, `walks_agree` and `walks_keep` of pr_base.
//!
//! Which changes alter the shape is told exactly, both ways: `shape_is_told` of each change that can be made, where a mode or an owner is set only
//! on what has a name and has other numbers, and a name is moved only to where it doesn't stand for the same. An inode has a name exactly where a
//! text names it (`names_are_texts`), and no more is told than of the kind of a change (`less_is_told`).
//!
//! So is which changes alter the bytes of files (`bytes_are_told`): a write of the bytes that stand there and a cut to the size that a file has alter
//! none.
//!
//! Only openat with O_CREAT and the calls that make, remove and move names and that set modes and owners make changes that can alter the shape, and
//! only a write, a cut and openat with O_TRUNC such as can alter bytes (`calls_leave_shape`, `calls_leave_bytes`); an execve's new program alters
//! neither (`programs_leave_both`). A call makes at most one of either (`calls_alter_once`). Hence both ways of all changes of a call, one behind the
//! other, each told of the tree before it: whether they alter the shape and whether they alter bytes, and that counting those that do counts the
//! calls that do (`shape_is_told_along`, `bytes_are_told_along`; of calls `calls_are_told`, and `programs_are_told`). Changes none of which can alter
//! the shape leave it, and the user, whatever else is known of the state (`shape_stays_along`).
//!
//! Both are told before a call is carried out, too, but for the bytes of a write: a call that answers a number alters what was told of it, and any other
//! alters neither (`calls_are_foretold`); of a write its own changes tell (`writes_are_found`). A tree that is left as it is has both still, and so it
//! has behind the end of a process and behind changes none of which can alter either (`same_trees_have_both`, `ends_leave_both`,
//! `quiet_changes_leave_both`).
//!
//! The reads of the first bytes for scripts, and names of descriptors, are no part of a key.
#![tactic(auto)]

pub mod laws;
