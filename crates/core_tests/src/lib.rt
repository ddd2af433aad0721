//! Tests of a kernel: which stops a watcher of its calls has, and which steps a process makes; and stops of several processes
//! that come apart.
#![tactic(auto)]

#[cfg(test)]
mod loosely;
#[cfg(test)]
mod noting;
#[cfg(test)]
mod run;
#[cfg(test)]
mod stage;
#[cfg(test)]
mod start;
#[cfg(test)]
mod stepped;
#[cfg(test)]
mod watched;
