// Instructions and objects of the whole language, what each instruction does, valid objects, and how they run over the
// entries of a journal.
#![tactic(auto)]

pub mod boxed;
pub mod constant;
pub mod instr;
pub mod laws;
pub mod object;
pub mod runs;
pub mod schedule;
pub mod valid;
