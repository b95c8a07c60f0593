// What the tables of a program need to be sound, from the rules that its module keeps: laws, which stand in specs/.
#![tactic(auto)]

pub mod laws;
