// What ends the program with status 1.
use std::io;
use thiserror::Error;

#[derive(Debug, Drop, Error)]
pub(crate) enum Failure {
    #[error("an argument is no text")]
    NoText,
    #[error("usage: spool [--help | --version]")]
    Usage,
    #[error(transparent)]
    InputOutput(#[from] io::Error),
}
