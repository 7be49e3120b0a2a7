// Pseudo-random numbers, each made from the one before it.
ghost use Rattle.std.specs.Prelude.{◌≡◌, ◌+◌, ◌*◌, ◌%◌, ◌^◌, Some};

// The number behind this one.
pub fn step(number: u64) -> u64
    ensures { result ≡ (number * 6364136223846793005 + 1442695040888963407) % 2 ^ 64 }
{
    number
        .wrapping_mul(6_364_136_223_846_793_005)
        .wrapping_add(1_442_695_040_888_963_407)
}

// The numbers behind a seed, without end.
#[derive(Drop)]
pub struct Random {
    last: u64,
}

impl Random {
    // The first number is the one behind the seed.
    pub fn from_seed(seed: u64) -> Random
        ensures { result.last ≡ seed }
    {
        Random { last: seed }
    }
}

impl Iterator for Random {
    type Item = u64;

    ghost next_gives = { λ before number after. (number ≡ Some after.last) × (after.last ≡ (before.last * 6364136223846793005 + 1442695040888963407) % 2 ^ 64) };

    fn next(&mut self) -> Option<u64> {
        self.last = step(self.last);
        Some(self.last)
    }
}
