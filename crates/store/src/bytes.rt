// Bytes of an area: those of one of its little-endian numbers, read and written.
ghost use Rattle.std.specs.Prelude.{◌≡◌, ◌+◌, ◌≤◌, length};
ghost use Rattle.store.specs.Bytes.{le, SameOutside};

// The bytes of the number at `at`.
pub(crate) fn get<const WIDTH: usize>(area: &[u8], at: usize) -> [u8; WIDTH]
    requires { at + WIDTH ≤ length area.now }
    ensures { le WIDTH result 0 ≡ le WIDTH area.now at }
{
    let mut bytes = [0; WIDTH];
    bytes.copy_from_slice(&area[at..at + WIDTH]);
    bytes
}

// Writes the bytes of a number from `at` on.
pub(crate) fn put<const WIDTH: usize>(area: &mut [u8], at: usize, bytes: [u8; WIDTH])
    requires { at + WIDTH ≤ length area.old }
    ensures value { le WIDTH area.new at ≡ le WIDTH bytes.entry 0 }
    ensures others { SameOutside area.old area.new at WIDTH }
{
    area[at..at + WIDTH].copy_from_slice(&bytes);
}
