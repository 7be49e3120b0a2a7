// The numbers of the refusals.
ghost use Rattle.std.specs.Prelude.{◌≡◌};
ghost use Rattle.slab_log.specs.Numbers.{number_of};

use crate::refusal::Refusal;

impl Refusal {
    // The number by which users know the refusal. It is a method and no conversion: what a refusal carries is not in it.
    pub fn number(self) -> u8
        ensures { result ≡ number_of self }
    {
        match self {
            Refusal::BadSize => 1,
            Refusal::BadExtent => 2,
            Refusal::Stopped(_) => 3,
            Refusal::NoWant => 4,
            Refusal::BeyondSlab => 5,
            Refusal::NoSpace => 6,
            Refusal::AlreadyFree => 7,
            Refusal::TooManyExtents => 8,
            Refusal::LogFull {
                places: _,
                needed: _,
            } => 9,
            Refusal::StoreFull => 9,
            Refusal::AreaShort => 10,
            Refusal::NoWord => 10,
            Refusal::BadHeader => 11,
            Refusal::BadLine => 12,
        }
    }
}
