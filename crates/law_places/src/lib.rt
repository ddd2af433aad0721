//! What stands at guest texts in a state stands there after changes that calm rules allow.
//!
//! What is proved, with the clause or the law that carries it:
//!
//! Laws of what stays in its place while calls change a state, and no code. Places in use are working directories, executables and what is open,
//! by the number of the open file. All places stand in a state (`PlacesStand`) where the state is lawful, the table of mounts is settled in it,
//! each source is the entry at which it was settled, and each place in use that has a name stands at a guest text. A state with mounts and a
//! watched one match (`IsMatch`) where their bare parts are equal, processes have equal registers and memories that are equal but for marked
//! bytes, each slot's tag is the index of the mount of its place, and all places stand.
//!
//! Where two states match, all that walks of a caller go by is matched (`matches_are_matched`, `tagged_places_are_placed`). What stood at a guest
//! text stands there later, if no name on the way is gone, no directory above it is shut, and no process is over in whose directory it lies
//! (`what_stood_stands`, `places_follow`). Changes that take nothing away keep all places standing, if a new place stands before it comes into
//! use (`changes_keep_places`, `quiet_changes_keep_places`, `changes_keep_what_stands`); so do a name that is taken away, a mode or an owner that
//! changes, and the end of a process, where they take nothing that is needed (`removals_keep_places`, `rights_keep_places`, `ends_keep_places`).
//! A name that is moved takes nothing of what the table, directories in use and files remembered elsewhere need (`moves_leave_most`); where no
//! source and no mount point lies between its old directory and its new one, and the user comes to the new one and may search it, what remembers
//! the entry or lies below it stands at another guest text in the same mount, so all places stand after the move (`moves_keep_places`). Each
//! slot's tag stays the index of its mount (`tags_follow`).
//!
//! Only tested, or not shown: That settled bindings name the source of a directory by its entry: law_starts (`settled_sources_are_named`).
//!
//! # `keeping`
//!
//! What stands at guest texts stands there after the changes of a calm call.
//!
//! The same of calm calls, and no code. Changes that break none of the calm rules on changes keep all places standing, where new places stand
//! before they come into use, and each name that moves does so between directories which the second rule doesn't part, to one that the user comes
//! to and may search (`calm_moves_keep_places`); those that move no name ask for no more than the new places (`calm_changes_keep_places`).
#![tactic(auto)]

pub mod changes;
pub mod keeping;
pub mod matching;
pub mod moving;
pub mod staying;
pub mod tagging;
pub mod taking;
