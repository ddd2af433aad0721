//! Programs and scripts as a kernel with mounts and a tracer find and read them: laws, and no code.
//!
//! What is proved, with the clause or the law that carries it:
//!
//! Laws of programs in a state, and no code. In a state where all that walks go by is matched, a tracer knows the working directory of a process
//! (`working_directories_are_known`). From there a kernel with mounts and a tracer find the same program along a path, with the same first bytes,
//! at whose host text the plain kernel comes to the same file and entry, or the same error (`programs_are_found_alike`); what scripts lead to is
//! the same program with the same arguments, or the same error (`expansions_agree`); and the plan of the kernel with mounts is that of the plain
//! kernel, of the program and the arguments that the tracer hands over, but for the mount, with an index that is its mount's
//! (`programs_are_planned_alike`). The lists that are read are within the limits of a program's lists (`lists_fit`). Where a plain kernel sees of
//! its state what the host's own view of the other shows, and reads those arguments and the same environment, it loads the same image from the
//! same file (`executions_agree`), so it does of a program that is no script where it is handed the call's own lists (`plain_executions_agree`),
//! or the tracer answers the error of the kernel with mounts (`refused_executions_agree`). Two states that are equal but for mounts, the second
//! of a plain kernel, are shown so (`states_are_shown_alike`).
//!
//! A path leads for a tracer where it leads for a kernel with mounts, or fails alike (`paths_lead_alike`); where its walk fails, where no program
//! stands, where lists can't be read, and along an empty path both kernels refuse the call with the same error (`lost_executions_agree`,
//! `missing_executions_agree`, `unread_executions_agree`, `empty_executions_agree`).
//!
//! Only tested, or not shown: That the plain kernel reads the arguments of a script from the shelf: law_programs.
//!
//! # `lists`, `reading`, `room`, `shelves`
//!
//! What a tracer puts on the shelf of a script fits there, stands there, and is what the plain kernel reads: laws, and no code.
//!
//! Laws of what a tracer puts on the shelf of a script, and no code. The last program's host text, the texts that scripts put before the kept
//! arguments, and the list of addresses take less than 65,536 bytes (`scripts_have_room`); those texts can be paths
//! (`script_texts_are_path_texts`); the arguments of what runs are within a program's limits (`scripts_keep_the_limits`); so where the kept
//! addresses can be read, a script is never cancelled for want of room (`scripts_are_shelved`).
//!
//! Laws of lists of texts in a memory, and no code. What the kernel has read of both lists stands there (`read_lists_stand`), and lists that
//! stand there within the limits are read (`standing_lists_are_read`); where the addresses of a list were copied, with an end behind them, the
//! same texts stand (`lists_are_copied`); and the addresses behind the first one are the same in a memory that is equal but for marked bytes
//! (`kept_addresses_are_alike`).
//!
//! A law of the shelf of a script, and no code: once it is written, the host text stands at its address, and the new list at its own, the texts
//! that scripts put there before those that are kept (`shelved_scripts_stand`).
//!
//! And a law of what is read of it, and no code: the plain kernel reads the arguments that the tracer found, and the call's own environment
//! (`script_lists_are_read`).
//!
//! Only tested, or not shown: That execve(2) of a script so keeps both machines together: law_execves.
#![tactic(auto)]

pub mod agreeing;
pub mod executing;
pub mod lists;
pub mod reading;
pub mod refusing;
pub mod room;
pub mod shelves;
