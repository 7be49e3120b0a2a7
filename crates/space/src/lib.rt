// The free extents of a slab.
#![tactic(auto)]

mod change;
mod condensed;
mod questions;
mod replay;
mod run;
mod search;
mod space;
mod tables;
mod used;
mod used_runs;

pub use space::Space;
