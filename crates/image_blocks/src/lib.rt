// The names of the blocks that hold keys, as weights, and the runs of one weight.
#![tactic(auto)]

pub mod names;
pub mod runs;
