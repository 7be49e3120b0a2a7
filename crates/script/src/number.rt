// Reading a number of a script line.
ghost use Rattle.std.specs.Prelude.{◌≡◌, ◌≤◌, length, take, drop};
ghost use Rattle.script.specs.Numbers.{front_digits, value, number_at};

use slab_log::Refusal;

// The most digits of a number.
const MOST_DIGITS: usize = 10;

// A number of a line, and the place just behind its digits. Readers of a line take it whole with a place, and no rest of it, since what a
// line asks for is said by places.
#[derive(Clone, Copy, PartialEq, Eq, Debug)]
pub struct Number {
    pub value: u64,
    pub end: usize,
}

// What stands from a place of the line on, up to one byte more than a number may have: no line is read on for a number that is refused. By a
// part of the line and no `skip`, which walks to the place.
fn front_from(line: &[u8], from: usize) -> &[u8]
    ensures { result.now ≡ take 11 (drop from line.now) }
{
    let rest = line.get(from..).unwrap_or_default();
    &rest[..rest.len().min(MOST_DIGITS + 1)]
}

// What the digits at the front of these bytes write in base ten, and how many they are. The library's `parse` takes a text and a sign, and its
// text would have to be cut out and tested first. One loop for both: counted first, each digit is read twice.
fn read_digits(bytes: &[u8]) -> Number
    requires { length bytes.now ≤ 11 }
    ensures value { result.value ≡ value (front_digits bytes.now) }
    ensures end { result.end ≡ length (front_digits bytes.now) }
{
    let mut value: u64 = 0;
    let mut end = 0;
    for digit in bytes {
        if !digit.is_ascii_digit() {
            break;
        }
        value = value * 10 + u64::from(*digit - b'0');
        end += 1;
    }
    Number { value, end }
}

// The number whose digits begin at a place of the line: 1 to 10 digits, up to the first byte that is none.
pub fn read_number(line: &[u8], from: usize) -> Result<Number, Refusal>
    ensures { result ≡ number_at line.now from }
{
    let digits = read_digits(front_from(line, from));
    if digits.end == 0 || digits.end > MOST_DIGITS {
        return Err(Refusal::BadLine);
    }
    Ok(Number {
        value: digits.value,
        end: from + digits.end,
    })
}
