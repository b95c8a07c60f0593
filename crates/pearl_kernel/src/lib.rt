//! The core of a run of any number of tasks, with the actions that they offer: who acts next, what an action does, and
//! what it tells.
//!
//! [`Kernel::new`] takes all the memory that a run needs. Each task that is active offers its next action
//! ([`Kernel::unsettled`], [`Kernel::offered`]); then [`Kernel::act`] does the action of the one whose turn it is, and
//! [`Kernel::next_event`] hands out what it told. Between actions milliseconds pass ([`Kernel::tick`], [`Kernel::skip`])
//! and interrupts occur ([`Kernel::interrupt`]); the plans that fire then serve. What comes in at terminals and inputs
//! waits there ([`Kernel::input`]). The core can be recorded ([`Kernel::recorded`]), and a kernel be made of the record
//! ([`Kernel::from_record`]).
#![tactic(auto)]

mod alike;
mod bid;
mod changes;
mod channel;
mod due;
mod gets;
mod happened;
mod inputs;
mod kernel;
mod listening;
mod mirror;
mod opening;
mod perform;
mod plans;
mod recorded;
mod standing;
mod state;
mod timing;
mod unsettled;

pub use kernel::{Acted, Kernel};
