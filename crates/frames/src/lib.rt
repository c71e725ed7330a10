// Frames between nodes, and the 32-bit words that carry them.
#![tactic(auto)]

pub mod frame;
pub mod payload;
pub mod refusal;
