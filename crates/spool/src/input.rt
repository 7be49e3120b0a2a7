// Standard input, block by block, and the replies to its lines.
use script::{Console, Feed};
use std::io;
use std::io::{Read, Write};
use store::LogStore;

// How many bytes are read at once.
const BLOCK: usize = 65536;

// Answers every line of standard input as soon as its block has been read.
pub(crate) fn answer_input<S: LogStore>(
    rt: &HostRuntime,
    console: &mut Console<S>,
) -> io::Result<()> {
    let mut block = vec![in rt.alloc(); 0u8; BLOCK]?;
    let mut out = Vec::new(rt.alloc());
    let mut feed = Feed::new();
    let mut input = rt.stdin();
    let mut output = rt.stdout();
    // A loop has to end by its count: no script is read in so many blocks.
    for _ in 0..u64::MAX {
        let count = input.read(&mut block)?;
        if count == 0 {
            break;
        }
        feed.take_bytes(console, &block[..count], &mut out)?;
        output.write_all(&out)?;
        output.flush()?;
        out.clear();
    }
    feed.end(console, &mut out)?;
    output.write_all(&out)?;
    output.flush()
}
