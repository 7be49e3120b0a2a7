// What a log is made of: sizes, extents, entries and their words, faults and refusals; and the laws of logs.
#![tactic(auto)]

mod entry;
mod extent;
mod fault;
mod laws;
mod make;
mod number;
mod reading;
mod refusal;
mod size;
mod words;
mod writing;

pub use entry::{DebugWord, Effect, Entry, Span};
pub use extent::Extent;
pub use fault::{Fault, Stop};
pub use laws::{
    condensed_log_exists, condensed_log_is_shortest, condensed_log_is_unique,
    condensed_log_replays, equal_condensed_logs_have_equal_sectors, grant_replays,
    reading_undoes_writing, return_replays, worked_cases_hold,
};
pub use refusal::Refusal;
pub use size::Size;
pub use words::EntryWords;
pub use writing::encode;
