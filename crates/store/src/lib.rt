// Stores for the words of a log: the trait, a store with places of its own, and a store over an area of bytes.
#![tactic(auto)]

mod bytes;
mod extents;
mod formatting;
mod header_rule;
mod image;
mod layout;
mod log_store;
mod own;
mod room;
mod words;

pub use extents::add_extent;
pub use formatting::format;
pub use header_rule::{HEADER_BYTES, Header, check};
pub use image::ImageStore;
pub use log_store::LogStore;
pub use own::{OwnStore, PLACES};
pub use room::room_for;
pub use words::Words;
