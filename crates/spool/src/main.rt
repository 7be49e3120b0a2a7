// spool: runs a script of calls from standard input on one slab, over a store of its own.
#![tactic(auto)]

mod failure;
mod input;
mod request;

use failure::Failure;
use input::answer_input;
use request::Request;
use script::Console;
use std::io;
use std::process::ExitCode;
use store::OwnStore;

const HELP: &str = "spool: an allocator of disk sectors that runs a script

Each line of standard input gets one reply line on standard output.

  s SIZE          a slab of SIZE sectors, 1 to 67108864; the first line, and no other
  a WANT          allocate WANT sectors: the reply is `at` and the first of them
  f START LENGTH  free LENGTH sectors from START on
  c               condense the log: the reply is `words` and how many it then has
  q               figures: free sectors, free extents, the longest one, words of the log
  r               close the slab, open it at the same size and load it

A line has at most 64 bytes: a letter, then each number after one space, with 1 to
10 digits. A refused line gets `no` and a number:

  1 no such size             6 no free extent is long enough
  2 no such extent           7 a sector of the extent is free already
  3 the slab is stopped      8 too many free extents
  4 a want of 0              9 the log has too few places (condense it)
  5 beyond the slab         12 a line against its form, or after a refused first line

  spool < SCRIPT     run a script
  spool --help       print this text
  spool --version    print the version
";

const VERSION: &str = "spool 0.1.0
";

// Runs the script on standard input.
fn run(rt: &HostRuntime) -> io::Result<()> {
    let mut console = Console::new(OwnStore::new());
    let answered = answer_input(rt, &mut console);
    let _store = console.finish();
    answered
}

// Does what the command line asks for.
fn perform(rt: &HostRuntime) -> Result<(), Failure> {
    let args = std::env::args(rt).map_err(|_| Failure::NoText)?;
    match Request::from_args(args).ok_or(Failure::Usage)? {
        Request::Run => run(rt)?,
        Request::Help => rt.print(HELP)?,
        Request::Version => rt.print(VERSION)?,
    }
    Ok(())
}

fn main(rt: HostRuntime) -> ExitCode {
    let Err(failure) = perform(&rt) else {
        return ExitCode::SUCCESS;
    };
    let _ = eprintln!(rt; "spool: {failure}");
    ExitCode::FAILURE
}
