//! What a task and the core hand each other: the action that a task offers, and what it hears after it. Their large
//! parts are made where they are kept, and are not moved.
#![tactic(auto)]

pub mod heard;
pub mod offer;
