// Sectors by their addresses, read and written: each is found as the track library promises.
#![tactic(auto)]

pub mod read;
pub mod run;
pub mod transfer;
pub mod write;
