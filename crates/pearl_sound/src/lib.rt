// That the program which a source means is sound: what there is of it are laws, which stand in specs/.
#![tactic(auto)]

pub mod laws;
