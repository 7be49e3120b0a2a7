// What a word of a log says.
ghost use Rattle.std.specs.Prelude.{◌^◌, ◌<◌, ◌≤◌};
ghost use Rattle.slab_log.specs.Limits.{longest_run};

// What an entry does with its sectors.
#[derive(Clone, Copy, PartialEq, Eq, Debug)]
pub enum Effect {
    Allocates,
    Frees,
}

// The sectors of an entry. Both numbers fit their fields of the word, so that no entry can lose a part of its run.
#[derive(Clone, Copy, PartialEq, Eq, Debug)]
pub struct Span {
    pub offset: u64,
    pub run: u64,
    ghost low: { offset < 2 ^ 47 },
    ghost some: { 1 ≤ run },
    ghost most: { run ≤ longest_run },
}

// The fields of a debug word. Replay skips the word, whatever they are.
#[derive(Clone, Copy, PartialEq, Eq, Debug)]
pub struct DebugWord {
    pub action: u8,
    pub pass: u16,
    pub group: u64,
}

#[derive(Clone, Copy, PartialEq, Eq, Debug)]
pub enum Entry {
    Allocate(Span),
    Free(Span),
    Debug(DebugWord),
}
