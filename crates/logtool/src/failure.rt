// What can go wrong, and how it is told.
use slab_log::{Refusal, Stop};
use std::alloc::AllocError;
use std::io;
use thiserror::Error;

#[derive(Debug, Drop, Error)]
pub enum Failure {
    #[error("an argument is no text")]
    NoText,
    // The words of the command line are none of the commands.
    #[error("wrong arguments; logtool --help shows the commands")]
    Usage,
    // The argument of this name is not a number.
    #[error("{0} is not a number from 0 to 18446744073709551615")]
    BadNumber(&'static str),
    #[error("not enough memory for the image")]
    NoMemory(#[from(alloc)] AllocError),
    // The file could not be opened, read or written.
    #[error("{0}")]
    File(io::Error),
    // The new file that is to replace the file could not be made, or not take its place.
    #[error("its replacement, the same name with .new: {0}")]
    Replacement(io::Error),
    #[error("standard output: {0}")]
    Output(#[from] io::Error),
    #[error("refusal 11: fewer bytes than the 16 of a header")]
    ShortImage,
    // The log has a fault.
    #[error("{0}")]
    Faulty(#[from] Stop),
    // A call of the stores or of the slab was refused.
    #[error("refusal {}: {}", .0.number(), .0)]
    Refused(#[from] Refusal),
}
