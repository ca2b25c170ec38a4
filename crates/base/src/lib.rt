// What every layer uses: byte slices.
#![tactic(auto)]

pub mod bytes;
