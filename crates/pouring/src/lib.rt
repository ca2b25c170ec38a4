// Copy Blocks carried out on four lent images: in turns of some source sectors, each read and written a track at a time.
#![tactic(auto)]

pub mod copy;
pub mod images;
pub mod turn;
