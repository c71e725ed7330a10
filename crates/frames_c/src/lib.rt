// The codec for C callers, on frames whose payload is a profile line.
#![tactic(auto)]

mod calls;
mod convert;
pub mod line_frame;
