// Fields of a format of bytes, each of which is spelled in one way: readers that tell the place of the first bad field,
// writers, and lists.
#![tactic(auto)]

pub mod fault;
pub mod part;
pub mod reader;
pub mod writer;
