// Tests of the stores, and what a caller knows of an area that it lent to an image store.
#![tactic(auto)]

mod client;
#[cfg(test)]
mod filling;
#[cfg(test)]
mod header_tests;
#[cfg(test)]
mod image_tests;
#[cfg(test)]
mod own_tests;
#[cfg(test)]
mod words_tests;
