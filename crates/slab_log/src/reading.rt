// Reading a word.
ghost use Rattle.std.specs.Prelude.{◌≡◌};
ghost use Rattle.slab_log.specs.Words.{read, entry_of, span_of, note_of};

use crate::entry::{DebugWord, Entry, Span};
use crate::fault::Fault;

// What a word says, or the fault that its two highest bits are both set.
impl TryFrom<u64> for Entry {
    type Error = Fault;

    ghost try_from_gives = { λ word result. result ≡ read word };

    fn try_from(word: u64) -> Result<Entry, Fault> {
        if word >> 63 == 0 {
            Ok(one_word_entry(word))
        } else if (word >> 62) % 2 == 0 {
            Ok(Entry::Debug(debug_fields(word)))
        } else {
            Err(Fault::Kind)
        }
    }
}

fn one_word_entry(word: u64) -> Entry
    ensures { result ≡ entry_of word }
{
    if (word >> 15) % 2 == 0 {
        Entry::Allocate(span_fields(word))
    } else {
        Entry::Free(span_fields(word))
    }
}

fn span_fields(word: u64) -> Span
    ensures { result ≡ span_of word }
{
    Span {
        offset: (word >> 16) % (1 << 47),
        run: word % (1 << 15) + 1,
    }
}

fn debug_fields(word: u64) -> DebugWord
    ensures { result ≡ note_of word }
{
    DebugWord {
        action: ((word >> 60) % 4) as u8,
        pass: ((word >> 50) % (1 << 10)) as u16,
        group: word % (1 << 50),
    }
}
