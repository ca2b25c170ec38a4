// Copy Blocks on four images: source bytes run on into destination sectors. A copy within one drive is no case of its own.
#![tactic(auto)]

pub mod route;
