// Tests of the crate slab_log: the edges of sizes and extents, words read and written, the numbers and texts of refusals.

#![tactic(auto)]

#[cfg(test)]
mod edges;
#[cfg(test)]
mod numbers;
#[cfg(test)]
mod texts;
#[cfg(test)]
mod words;
