// The lines that tell of an image: its header's figures, its words, and what its log holds. Header and audit have no `Display`: each has one
// listing of several lines, here.
use crate::failure::Failure;
use crate::word_text::WordText;
use disk_slab::Audit;
use std::io::Write;
use store::{Header, LogStore, Words};

// The header's figures, a line for each.
pub(crate) fn write_header<W: Write>(out: &mut W, header: Header) -> Result<(), Failure> {
    writeln!(out, "count {}", header.count)?;
    writeln!(out, "capacity {}", header.capacity)?;
    writeln!(out, "first word at byte {}", header.first)?;
    writeln!(out, "places end at byte {}", header.end)?;
    Ok(())
}

// A line for each word: its place, what it says, and the word in hexadecimal.
pub(crate) fn write_words<W: Write, S: LogStore>(out: &mut W, store: &S) -> Result<(), Failure> {
    for (place, word) in Words::of(store).enumerate() {
        let text = WordText(word);
        writeln!(out, "{place}: {text}")?;
    }
    Ok(())
}

// What the log holds, a line for each figure.
pub(crate) fn write_audit<W: Write>(out: &mut W, audit: Audit) -> Result<(), Failure> {
    writeln!(out, "allocating words {}", audit.tally.allocating)?;
    writeln!(out, "freeing words {}", audit.tally.freeing)?;
    writeln!(out, "debug words {}", audit.tally.debug)?;
    writeln!(out, "free sectors {}", audit.figures.free)?;
    writeln!(out, "free extents {}", audit.figures.extents)?;
    writeln!(out, "longest free extent {}", audit.figures.longest)?;
    writeln!(out, "words {}", audit.figures.words)?;
    writeln!(out, "condensed words {}", audit.condensed)?;
    Ok(())
}
