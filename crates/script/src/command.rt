// What a line of a script asks for.

#[derive(Clone, Copy, PartialEq, Eq, Debug)]
pub enum Command {
    // s: a slab of so many sectors.
    Size(u64),
    // a: so many sectors.
    Allocate(u64),
    // f: this extent back.
    Free { start: u64, length: u64 },
    // c: the condensed log.
    Condense,
    // q: the figures.
    Figures,
    // r: close, open at the same size, and load.
    Reload,
}
