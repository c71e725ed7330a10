// Channels: the lists of frames that wait between nodes, four kinds of them, and piles of these.
#![tactic(auto)]

pub mod channel;
pub mod holding;
pub mod layered;
pub mod line;
pub mod look;
pub mod puts;
pub mod repeating;
pub mod wild;
