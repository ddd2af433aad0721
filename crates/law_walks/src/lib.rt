//! A walk of a tracer along guest texts and a walk of a kernel with mounts along places come to the same.
//!
//! What is proved, with the clause or the law that carries it:
//!
//! Laws of walks over guest texts and over mounts, and no code. The premises are what one state of the two machines must meet: a table that
//! stands in the tree, whose sources are reached by their host texts and whose mount points are named by theirs (`IsSettled`); a process
//! directory that keeps its laws; a tracer that is told what the plain kernel's own walks find (`ArePeeks`); and links of the process directory
//! that, where they are reached, lead to what stands at the guest text of their tag and host name (`LinksLeadAlike`). A place stands at a guest
//! text where the text belongs to its mount, the text's host text reaches its object, and above a directory each guest text gives search
//! (`Stands`).
//!
//! The names of a guest text lead from the guest's root to what its host text names, in the mount to which the text belongs
//! (`texts_lead_as_their_host_texts`, `texts_are_owned`). A place that stands at a guest text is called by it, by its mount's tag and its host
//! text as well as by the kernel (`standing_places_are_called`); a directory stands at one guest text (`directories_stand_once`); and a place
//! stands at the guest text that a tag and a host text give, exactly where its own mount covers no name on the way (`tagged_places_stand`,
//! `standing_places_are_uncovered`).
//!
//! One look from a place and from a guest text at which it stands shows the same (`looks_agree`), so walks along any path from there, in every
//! mode, come to the same: the same error, or targets of which each stands at the text of the other (`walks_agree`).
//!
//! What is handed to the plain kernel in place of a path leads its own walk to the same object, and of what is no directory to the entry that an
//! opening remembers (`found_is_handed_over`); to the same directory, name, slash and entry, where no mount stands at the name, and else to a
//! name that is known as a mount point's (`names_are_handed_over`, `covered_names_are_points`); and to the same last kind
//! (`lasts_are_handed_over`). The directory of a name in which both walks end stands at its guest text, and may be searched
//! (`directories_of_names_are_searched`). All of these paths are made of what a tracer's walker answers (`answers_tell_targets`).
//!
//! Bindings that `settle` settled, and the host's own view, are such tables (`settled_bindings_are_settled`, `host_views_are_settled`); the root
//! stands at the root (`roots_stand`); before a process lives all premises are met (`first_scenes_are_matched`), and links of living processes
//! have the numbers that the premises ask for (`living_links_are_small`).
//!
//! A state of the kernel (kr_model) meets the premises for each caller where its table is settled and each working directory, executable and open
//! file that has a name stands at a guest text, with its mount's index as its tag and the entry of that text's host text (`states_are_matched`).
//! What a tracer is told of a state, as kr_model defines it, is what walks over the host's own view find (`states_are_peeked_at`). Of such a
//! place the kernel tells the guest text, and the plain kernel its host text, of which the tag gives the guest text (`places_in_use_are_told`);
//! and what both walks find is such a place, by the index of the guest text that the tracer finds (`found_is_in_use`).
//!
//! What a call is told of its paths in a state the plain kernel is told the same of what is handed to it: of what is looked up
//! (`found_is_told_alike`); of an entry that is taken away, where its name is no mount point's, that is made, or that may be made
//! (`names_are_told_alike`); and of a path that ends in no name (`lasts_are_told_alike`).
//!
//! Only tested, or not shown: Whole runs along paths with bindings, on both machines.
//!
//! # `bare_facts`, `bare`
//!
//! What walks over the host's own view find in two states that are equal but for mounts.
//!
//! Laws of states that are equal but for mounts, the holds that mounts have and what processes compute on, and no code. A tracer is told the same
//! of both (`peeks_are_bare`), walks over the host's own view are the same in both, with all that they come by (`host_walks_are_bare`), and so is
//! all that a call is told of targets (`facts_are_bare`).
//!
//! All places of a state that is lawful for the plain view are in the host's one mount (`lawful_states_are_in_one_mount`); there the plain view
//! is the host's own (`plain_walks_are_host_walks`, `plain_facts_are_host_facts`). So the plain kernel tells a call whose paths are absolute what
//! walks over the host's own view of the other state find (`seen_on_host_is_bare`), and two plain kernels tell any call the same, wherever its
//! paths begin (`plain_sight_is_bare`).
#![tactic(auto)]

pub mod bare;
pub mod bare_facts;
pub mod below;
pub mod facts;
pub mod handed;
pub mod laws;
pub mod start;
pub mod states;
pub mod translation;
