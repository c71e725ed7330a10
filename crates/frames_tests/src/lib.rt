// A third kind of payload, of four words, and the tests of the codec on it and on profile lines.
#![tactic(auto)]

pub mod stamp;
#[cfg(test)]
mod tests;
