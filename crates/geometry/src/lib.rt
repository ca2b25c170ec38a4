// Logical addresses, tracks, kinds of drive and a drive's parameters.
#![tactic(auto)]

pub mod config;
pub mod medium;
pub mod params;
