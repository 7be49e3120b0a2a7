// Writing words.
ghost use Rattle.std.specs.Prelude.{◌≡◌, ◌*◌, ◌^◌};
ghost use Rattle.std.specs.List.{slice_get};
ghost use Rattle.std.specs.Iterator.{YieldsFirst, item_count};
ghost use Rattle.slab_log.specs.Words.{effect_bit, word_of, entries, words_of, left};

use crate::entry::{Effect, Span};
use crate::extent::Extent;
use crate::words::EntryWords;

// The most sectors of one entry.
const LONGEST_RUN: u64 = 32_768;

// The word of an entry.
pub fn encode(effect: Effect, span: Span) -> u64
    ensures { result ≡ word_of effect span.offset span.run }
{
    span.offset * (1 << 16) + effect.bit() + (span.run - 1)
}

impl Effect {
    // The bit of a word that says the effect.
    fn bit(self) -> u64
        ensures { result ≡ effect_bit self * 2 ^ 15 }
    {
        match self {
            Effect::Allocates => 0,
            Effect::Frees => 1 << 15,
        }
    }
}

impl Extent {
    // How many entries the extent is written as.
    pub fn entries(self) -> usize
        ensures { result ≡ entries self.length }
    {
        self.length.div_ceil(LONGEST_RUN) as usize
    }

    // The word of the n-th of its entries, counted from 0, or nothing where it has no such entry.
    pub fn nth_word(self, effect: Effect, n: usize) -> Option<u64>
        ensures { result ≡ slice_get (words_of effect self.start self.length) n }
    {
        if n >= self.entries() {
            return None;
        }
        let done = n as u64 * LONGEST_RUN;
        let span = Span {
            offset: self.start + done,
            run: (self.length - done).min(LONGEST_RUN),
        };
        Some(encode(effect, span))
    }

    // The words of its entries, in order.
    pub fn words(self, effect: Effect) -> EntryWords
        ensures { left result ≡ words_of effect self.start self.length }
    {
        EntryWords {
            extent: self,
            effect,
            given: 0,
        }
    }
}

impl Iterator for EntryWords {
    type Item = u64;

    ghost next_gives = { YieldsFirst left };

    ghost remaining = { item_count left };

    fn next(&mut self) -> Option<u64> {
        let word = self.extent.nth_word(self.effect, self.given)?;
        self.given += 1;
        Some(word)
    }
}
