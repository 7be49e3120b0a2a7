// The keys of a table: what can be put in order. A start, and a length with a start.
ghost use Rattle.std.specs.Prelude.{◌≡◌, Bool, nat_lt};
ghost use Rattle.table.specs.Order.{Order, shorter};
ghost use Rattle.std.proofs.Common.{rules};

// What can be put in order. No `Ord`: that answers one of three, and what is asked of a key is one test with three laws, which the
// definitions of both keys compute.
pub trait Key: Copy {
    // Whether the first of two keys comes before the second.
    ghost before: { Self → Self → Bool };

    // Whether this key comes before another.
    fn precedes(self, other: Self) -> bool
        ensures { result ≡ before self other };

    ghost ordered: { Order before };
}

// Starts, the lower one first.
impl Key for u64 {
    ghost before = { nat_lt };

    ghost ordered = { Prim.search rules };

    // No derive writes this line: it ties the `<` of Rust, which both keys have already, to the order that the definitions name.
    fn precedes(self, other: u64) -> bool {
        self < other
    }
}

// A length, and where it starts: the shorter one first, and of two equally long ones the one that starts lower.
#[derive(Clone, Copy, PartialEq, Eq, PartialOrd, Ord, Debug, Default)]
pub struct LengthKey {
    pub len: u64,
    pub start: u64,
}

impl Key for LengthKey {
    ghost before = { shorter };

    ghost ordered = { Prim.search rules };

    fn precedes(self, other: LengthKey) -> bool {
        self < other
    }
}
