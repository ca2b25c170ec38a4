// Tracks of an image: their IDs and states, pairs, and where their sectors are found.
#![tactic(auto)]

pub mod find;
pub mod id;
pub mod pair;
pub mod search;
pub mod sector;
pub mod state;
pub mod view;
