// Tracks formatted, a slot a step, and their IDs checked.
#![tactic(auto)]

pub mod check;
mod fill;
pub mod format;
