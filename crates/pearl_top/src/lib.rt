// The top call: words and files to a status and bytes.
#![tactic(auto)]

mod bench;
mod check;
mod command;
mod compile;
mod failure;
mod follower;
pub mod laws;
mod limits;
mod load;
mod object;
mod print;
pub mod program;
mod read;
mod refuse;
mod replay;
mod resumed;
mod save;
mod source;
pub mod status;
pub mod top;
