// Frames to words, and words to frames, for every kind of payload.
#![tactic(auto)]

mod bits;
mod reader;
mod word;
mod writer;

pub use reader::read_frame;
pub use word::Kind;
pub use writer::write_frame;
