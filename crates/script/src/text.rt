// Writing replies. No `Display` for them: it was tried and proved, but is no plainer, since its text goes into an ArrayString first, where
// no clause says that it finds room, and from there into the bytes (which took the script of bench/run 1.5 % longer).
ghost use Rattle.std.specs.Prelude.{◌≡◌, ◌++◌};
ghost use Rattle.script.specs.Replies.{text_of, line_of, AddsReply, Puts};

use crate::reply::Reply;
use disk_slab::Figures;
use itoa::{Buffer, Integer};
use std::alloc::AllocError;

// Adds a word and a number.
fn put_number<I: Integer>(out: &mut Vec<u8>, word: &[u8], number: I) -> Result<(), AllocError>
    ensures { Puts (word.now ++ I.text number) result out.old.items out.new.items }
{
    out.extend_from_slice(word)?;
    let mut buffer = Buffer::new();
    out.extend_from_slice(buffer.format(number).as_bytes())
}

// Adds the words and numbers of the figures.
fn put_figures(out: &mut Vec<u8>, figures: Figures) -> Result<(), AllocError>
    ensures { Puts (text_of (Reply.Figures figures)) result out.old.items out.new.items }
{
    put_number(out, b"free ", figures.free)?;
    put_number(out, b" extents ", figures.extents)?;
    put_number(out, b" longest ", figures.longest)?;
    put_number(out, b" words ", figures.words)
}

// Adds the text of a reply.
fn put_text(out: &mut Vec<u8>, reply: Reply) -> Result<(), AllocError>
    ensures { Puts (text_of reply) result out.old.items out.new.items }
{
    match reply {
        Reply::Done => out.extend_from_slice(b"ok"),
        Reply::At(start) => put_number(out, b"at ", start),
        Reply::Words(n) => put_number(out, b"words ", n),
        Reply::Figures(figures) => put_figures(out, figures),
        Reply::No(refusal) => put_number(out, b"no ", refusal.number()),
    }
}

// Adds the text of a reply and its line feed.
fn put_line(out: &mut Vec<u8>, reply: Reply) -> Result<(), AllocError>
    ensures { Puts (line_of reply) result out.old.items out.new.items }
{
    put_text(out, reply)?;
    out.extend_from_slice(b"\n")
}

// Adds the line of a reply, with its line feed; without memory nothing is added.
pub fn add_reply(out: &mut Vec<u8>, reply: Reply) -> Result<(), AllocError>
    ensures { AddsReply reply result out.old.items out.new.items }
{
    let before = out.len();
    let added = put_line(out, reply);
    if added.is_err() {
        out.truncate(before);
    }
    added
}
