// Reading a line of a script.
ghost use Rattle.std.specs.Prelude.{◌≡◌, ℕ};
ghost use Rattle.script.specs.Lines.{spaced_at, ended, one_number, extent_numbers, command_of};

use crate::command::Command;
use crate::number::{Number, read_number};
use slab_log::Refusal;

// The most bytes of a line before its line feed.
const LONGEST_LINE: usize = 64;

// The number after one space, at a place of the line.
fn spaced_number(line: &[u8], at: usize) -> Result<Number, Refusal>
    ensures { result ≡ spaced_at line.now at }
{
    let Some(b' ') = line.get(at) else {
        return Err(Refusal::BadLine);
    };
    read_number(line, at + 1)
}

// The command, if the line ends at this place.
fn at_end(line: &[u8], at: usize, command: Command) -> Result<Command, Refusal>
    ensures { result ≡ ended line.now at command }
{
    if at == line.len() {
        Ok(command)
    } else {
        Err(Refusal::BadLine)
    }
}

// The command of the number that the rest of the line gives.
fn one_number<F: FnOnce(u64) -> Command>(line: &[u8], make: F) -> Result<Command, Refusal>
    requires { F.IsAlwaysCallable make }
    ensures { (given : ℕ → Command) → ((n : ℕ) (command : Command) → F.post make n command → command ≡ given n) → result ≡ one_number given line.now }
{
    let number = spaced_number(line, 1)?;
    at_end(line, number.end, make(number.value))
}

// The extent that the rest of the line frees.
fn read_extent(line: &[u8]) -> Result<Command, Refusal>
    ensures { result ≡ extent_numbers line.now }
{
    let start = spaced_number(line, 1)?;
    let length = spaced_number(line, start.end)?;
    let command = Command::Free {
        start: start.value,
        length: length.value,
    };
    at_end(line, length.end, command)
}

// What a line, without its line feed, asks for.
pub fn read_line(line: &[u8]) -> Result<Command, Refusal>
    ensures { result ≡ command_of line.now }
{
    if line.len() > LONGEST_LINE {
        return Err(Refusal::BadLine);
    }
    match line.first().copied().map(char::from) {
        Some('s') => one_number(line, Command::Size),
        Some('a') => one_number(line, Command::Allocate),
        Some('f') => read_extent(line),
        Some('c') => at_end(line, 1, Command::Condense),
        Some('q') => at_end(line, 1, Command::Figures),
        Some('r') => at_end(line, 1, Command::Reload),
        _ => Err(Refusal::BadLine),
    }
}
