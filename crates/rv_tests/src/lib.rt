//! Tests of the assembler, of a loop and of memory, of what no row of rv_rows can show; and of which ELF files are accepted, of files that are written, and
//! of programs as they start.
#![tactic(auto)]

#[cfg(test)]
mod assembler;
#[cfg(test)]
mod loaded;
#[cfg(test)]
mod loops;
#[cfg(test)]
mod memory;
#[cfg(test)]
mod rules;
#[cfg(test)]
mod written;
