//! Tests of the top call that rows of runs don't show: objects that give little, tear or fail, listings that are cut at each place, and generated
//! cases.
#![tactic(auto)]

#[cfg(test)]
mod call;
#[cfg(test)]
mod cut;
#[cfg(test)]
mod faults;
#[cfg(test)]
mod generated;
#[cfg(test)]
mod home;
