// The command line.
use crate::failure::Failure;
use std::env::Args;

#[derive(Drop)]
pub enum Command {
    Help,
    Version,
    Format(String, usize),
    Check(String),
    List(String),
    Audit(u64, String),
    Condense(u64, String),
    Sample(String),
}

// The number that an argument says. A function and no `FromStr`: the error names the argument.
fn number(argument: &'static str, text: &str) -> Result<u64, Failure> {
    text.parse().map_err(|_| Failure::BadNumber(argument))
}

impl Command {
    // The file that the command is about.
    pub(crate) fn path(&self) -> Option<&str> {
        match self {
            Command::Help | Command::Version => None,
            Command::Format(path, _)
            | Command::Check(path)
            | Command::List(path)
            | Command::Audit(_, path)
            | Command::Condense(_, path)
            | Command::Sample(path) => Some(path.as_str()),
        }
    }

    // The command that the arguments name, the first of which is the program.
    pub(crate) fn from_args(mut args: Args) -> Result<Command, Failure> {
        let _ = args.next();
        let name = args.next().ok_or(Failure::Usage)?;
        let first = args.next();
        let second = args.next();
        if args.next().is_some() {
            return Err(Failure::Usage);
        }
        match (first, second) {
            (None, None) => Command::alone(name.as_str()),
            (Some(path), None) => Command::of_file(name.as_str(), path),
            (Some(first), Some(second)) => Command::of_two(name.as_str(), first, second),
            _ => Err(Failure::Usage),
        }
    }

    fn alone(name: &str) -> Result<Command, Failure> {
        match name {
            "--help" => Ok(Command::Help),
            "--version" => Ok(Command::Version),
            _ => Err(Failure::Usage),
        }
    }

    fn of_file(name: &str, path: String) -> Result<Command, Failure> {
        match name {
            "check" => Ok(Command::Check(path)),
            "list" => Ok(Command::List(path)),
            "sample" => Ok(Command::Sample(path)),
            _ => Err(Failure::Usage),
        }
    }

    fn of_two(name: &str, first: String, second: String) -> Result<Command, Failure> {
        match name {
            "format" => {
                let bytes = number("BYTES", second.as_str())?;
                Ok(Command::Format(first, bytes as usize))
            }
            "audit" => {
                let sectors = number("SIZE", first.as_str())?;
                Ok(Command::Audit(sectors, second))
            }
            "condense" => {
                let sectors = number("SIZE", first.as_str())?;
                Ok(Command::Condense(sectors, second))
            }
            _ => Err(Failure::Usage),
        }
    }
}
