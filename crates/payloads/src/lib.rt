// The two kinds of payload between lift boxes and the dispatch console.
#![tactic(auto)]

pub mod event;
pub mod line;
mod parts;
pub mod sort;
