// What the engine's calls speak of: a block, the commands, what the checks see and say, the controller's record and the answer.
#![tactic(auto)]

pub mod block;
pub mod record;
pub mod table;
pub mod verdict;
