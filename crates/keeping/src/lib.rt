// A track moved with its contents by single writes, so that a power failure at any point loses nothing (request E7).
#![tactic(auto)]

pub mod slots;
pub mod step;
