// A word of a log in words.
use slab_log::{DebugWord, Entry};
use std::fmt;

// What the word says, and the word itself in hexadecimal. A `Display` by hand, and no derive: its text depends on what the word says.
#[derive(Clone, Copy)]
pub struct WordText(pub u64);

impl fmt::Display for WordText {
    fn fmt<W: fmt::Write>(&self, f: &mut fmt::Formatter<W>) -> fmt::Result {
        let word = self.0;
        match Entry::try_from(word) {
            Ok(entry) => write_entry(entry, f)?,
            Err(fault) => write!(f, "fault {fault}")?,
        }
        write!(f, " (0x{word:016X})")
    }
}

fn write_entry<W: fmt::Write>(entry: Entry, f: &mut fmt::Formatter<W>) -> fmt::Result {
    match entry {
        Entry::Allocate(span) => write_span("allocate", span.run, span.offset, f),
        Entry::Free(span) => write_span("free", span.run, span.offset, f),
        Entry::Debug(note) => {
            let DebugWord {
                action,
                pass,
                group,
            } = note;
            write!(f, "debug action {action} pass {pass} group {group}")
        }
    }
}

fn write_span<W: fmt::Write>(
    effect: &str,
    run: u64,
    offset: u64,
    f: &mut fmt::Formatter<W>,
) -> fmt::Result {
    write!(f, "{effect} {run} from {offset}")
}
