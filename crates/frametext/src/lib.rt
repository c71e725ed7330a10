// Frames and words as text.
#![tactic(auto)]

pub mod fault;
pub mod frame_text;
pub mod payload_text;
mod scan;
pub mod word_text;

pub use scan::{ends, next_word};
