// Tests of the tables, against an array that has the value at each start.
#![tactic(auto)]

#[cfg(test)]
mod filling;
#[cfg(test)]
mod model;
#[cfg(test)]
mod random;
#[cfg(test)]
mod replacing;
