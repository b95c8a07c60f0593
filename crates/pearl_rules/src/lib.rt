// The rules of tasks: their actions and events, when plans fire, who acts, and what an action does.
#![tactic(auto)]

pub mod action;
pub mod entry;
pub mod event;
pub mod laws;
pub mod row;
pub mod series;
pub mod series_laws;
pub mod setup;
