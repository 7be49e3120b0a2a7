// A slab of a spool disk: its states and its calls.
#![tactic(auto)]

mod calls;
mod cold;
mod figures;
mod logged;
mod state;
mod summary;

pub use figures::{Audit, Figures, Tally};
pub use state::{Cold, Live};
