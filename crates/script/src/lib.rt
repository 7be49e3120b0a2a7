// Scripts of calls: the lines, what they ask, and the replies.
#![tactic(auto)]

mod answering;
mod command;
mod console;
mod feed;
mod feeding;
mod laws;
mod line;
mod number;
mod reply;
mod stage;
mod text;

pub use command::Command;
pub use console::Console;
pub use feed::Feed;
pub use laws::lines_are_texts;
pub use line::read_line;
pub use number::{Number, read_number};
pub use reply::Reply;
pub use text::add_reply;
