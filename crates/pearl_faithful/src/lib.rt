// That the object of a program is valid and runs as the program means. The definitions stand in specs/.
#![tactic(auto)]

pub mod laws;
