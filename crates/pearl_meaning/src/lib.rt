// What a program means: the source's task rules. The definitions stand in specs/.
#![tactic(auto)]

pub mod laws;
