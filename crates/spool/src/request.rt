// The command line.
use std::env::Args;

#[derive(Clone, Copy)]
pub enum Request {
    Run,
    Help,
    Version,
}

impl Request {
    // What the arguments ask for, the first of which is the program; nothing where they are wrong.
    pub(crate) fn from_args(args: Args) -> Option<Request> {
        let mut options = args.skip(1);
        let Some(option) = options.next() else {
            return Some(Request::Run);
        };
        match (option.as_str(), options.next()) {
            ("--help", None) => Some(Request::Help),
            ("--version", None) => Some(Request::Version),
            _ => None,
        }
    }
}
