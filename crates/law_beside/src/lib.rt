//! States that are equal but for what some of their processes compute on: laws, and no code.
//!
//! What is proved, with the law that carries it:
//!
//! Two states may have the same tree, the same open files, and processes with the same numbers, descriptors, places and layouts of memory, while some
//! of the processes compute on other registers and other bytes (`AreBeside`, by a test that tells which compute on the same). That is as an equality
//! is (`beside_is_an_equality`). Changes do on layouts what they do on registers and memories (`changes_are_laid`); so where their caller computes on
//! the same they leave such states, and a child computes on the same too (`changes_come_beside`). Who lives computes on what it computed on, whatever
//! another one does (`others_keep_images`). A death, instructions, a wait and the taking of output leave such states (`ends_come_beside`), and an edit
//! at a stop in one of the two leaves all others on the same (`edits_stay_beside`).
//!
//! # `calls`
//!
//! Of what processes compute on a call knows layouts alone, and its walks go by nothing of it (`calls_know_layouts`). So a call of a process that
//! computes on the same comes to the same in both states, and its walks reach the same (`plain_calls_come_beside`). Where those that stay at a call
//! have the same registers, the same processes are ready and picked, and a run that stands there ends alike (`picks_are_beside`).
//!
//! # `opened`
//!
//! What a process has open stays open while others call, as far as paths begin there (`others_stay_open`). Where all working directories and all
//! places of open files are inodes they stay so, behind calls whose walks look up no name in the process directory (`nodes_stay`).
#![tactic(auto)]

pub mod beside;
pub mod calls;
pub mod opened;
