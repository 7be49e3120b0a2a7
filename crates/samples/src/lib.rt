// What several crates of tests share: stores of given words, stores with the log of a comb, and pseudo-random numbers.
#![tactic(auto)]

mod combs;
mod random;
mod words;

pub use combs::comb_of;
pub use random::{Random, step};
pub use words::store_of;
