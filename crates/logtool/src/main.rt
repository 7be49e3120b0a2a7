// logtool: formats, checks, lists, audits and condenses log images on disk.
#![tactic(auto)]

mod command;
mod failure;
mod files;
mod listing;
mod replacement;
mod sample;
#[cfg(test)]
mod sample_tests;
mod slabs;
#[cfg(test)]
mod texts;
mod word_text;

use command::Command;
use failure::Failure;
use files::{audit_file, check_file, condense_file, format_file, list_file};
use sample::make_sample;
use std::process::ExitCode;

const HELP: &str = "logtool: a tool for log images of spool slabs

  logtool format FILE BYTES   make FILE, an image of BYTES bytes with no words
  logtool check FILE          say whether FILE's header is in order, and its figures
  logtool list FILE           print the header's figures and a line for each word
  logtool audit SIZE FILE     replay FILE's log at SIZE sectors, and print what it holds
  logtool condense SIZE FILE  put the condensed log at SIZE sectors in the place of FILE's log
  logtool sample FILE         make FILE, a small image with some words, and list it
  logtool --help              print this text
  logtool --version           print the version

No file that exists is overwritten, but for the one that condense is given, and that
only where all went well. A refusal is told with its number, a fault of the log with
its place; both end the program with status 1.
";

const VERSION: &str = "logtool 0.1.0
";

// Performs the command.
fn perform(rt: &HostRuntime, command: &Command) -> Result<(), Failure> {
    match command {
        Command::Help => Ok(rt.print(HELP)?),
        Command::Version => Ok(rt.print(VERSION)?),
        Command::Format(path, bytes) => format_file(rt, path.as_str(), *bytes),
        Command::Check(path) => check_file(rt, path.as_str()),
        Command::List(path) => list_file(rt, path.as_str()),
        Command::Audit(sectors, path) => audit_file(rt, path.as_str(), *sectors),
        Command::Condense(sectors, path) => condense_file(rt, path.as_str(), *sectors),
        Command::Sample(path) => make_sample(rt, path.as_str()),
    }
}

// The command that the command line asks for.
fn asked(rt: &HostRuntime) -> Result<Command, Failure> {
    let args = std::env::args(rt).map_err(|_| Failure::NoText)?;
    Command::from_args(args)
}

// Tells what went wrong, and with which file, where the command is about one.
fn tell(rt: &HostRuntime, path: Option<&str>, failure: &Failure) -> ExitCode {
    let _ = match path {
        Some(path) => eprintln!(rt; "logtool: {path}: {failure}"),
        None => eprintln!(rt; "logtool: {failure}"),
    };
    ExitCode::FAILURE
}

fn main(rt: HostRuntime) -> ExitCode {
    let command = match asked(&rt) {
        Ok(command) => command,
        Err(failure) => return tell(&rt, None, &failure),
    };
    match perform(&rt, &command) {
        Ok(()) => ExitCode::SUCCESS,
        Err(failure) => tell(&rt, command.path(), &failure),
    }
}
