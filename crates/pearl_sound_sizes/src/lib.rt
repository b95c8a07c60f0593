// That the program which a source means has numbers and sizes in their ranges: what there is of it are laws, in specs/.
#![tactic(auto)]

pub mod laws;
