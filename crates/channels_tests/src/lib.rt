// Piles of channels through the trait alone, and the tests of the channels.
#![tactic(auto)]

pub mod piles;
#[cfg(test)]
mod tests;
