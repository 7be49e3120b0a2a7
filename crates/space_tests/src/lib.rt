// Tests of the free extents of a slab: replay, granting and giving back, the questions, the condensed log.
#![tactic(auto)]

#[cfg(test)]
mod comb;
#[cfg(test)]
mod condensed;
#[cfg(test)]
mod debug_words;
#[cfg(test)]
mod faults;
#[cfg(test)]
mod helpers;
#[cfg(test)]
mod history;
#[cfg(test)]
mod long_return;
#[cfg(test)]
mod questions;
