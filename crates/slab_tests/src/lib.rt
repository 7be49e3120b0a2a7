// Tests of slabs: refusals, the most free extents, full and condensed logs, audits, the best fit, a slab over an image.
#![tactic(auto)]

#[cfg(test)]
mod audits;
#[cfg(test)]
mod comb;
#[cfg(test)]
mod condensed;
#[cfg(test)]
mod fits;
#[cfg(test)]
mod helpers;
#[cfg(test)]
mod image;
#[cfg(test)]
mod refusals;
#[cfg(test)]
mod stopped;
