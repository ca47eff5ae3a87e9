//! Numbers in octal.
ghost use Rattle.std.specs.Prelude.{◌≡◌, ◌+◌, ◌^◌, ◌<◌, ◌≤◌, drop, length};
ghost use Rattle.texts.specs.Numbers.{digit, six_digits, three_digits, octal};

/// How many octal digits a number of 64 bits has at most.
const MOST_DIGITS: usize = 22;

/// The last octal digit of a number.
fn digit(number: u32) -> u8
    ensures { result ≡ digit number }
{
    b'0' + (number % 8) as u8
}

/// The last octal digit of a long number.
fn long_digit(number: u64) -> u8
    ensures { result ≡ digit number }
{
    b'0' + (number % 8) as u8
}

/// The last six octal digits of a number, which are all that a word has.
#[tactic(auto, unfolding(crate::specs::Numbers::six_digits))]
pub fn six_digits(number: u32) -> [u8; 6]
    ensures { result ≡ six_digits number }
{
    [
        digit(number / 0o100000),
        digit(number / 0o10000),
        digit(number / 0o1000),
        digit(number / 0o100),
        digit(number / 0o10),
        digit(number),
    ]
}

/// The last three octal digits of a number, which are all that a byte has.
pub(crate) fn three_digits(number: u32) -> [u8; 3]
    ensures { result ≡ three_digits number }
{
    [digit(number / 0o100), digit(number / 0o10), digit(number)]
}

/// Writes the digits of a number at the end of its places, with no zeros in front, and returns the place of the first.
fn write_octal(number: u64, places: &mut [u8; MOST_DIGITS]) -> usize
    ensures written { drop result places.new ≡ octal number }
    ensures within { result ≤ 22 }
{
    let mut start = MOST_DIGITS - 1;
    let mut rest = number;
    places[start] = long_digit(rest);
    while rest >= 8 {
        rest /= 8;
        start -= 1;
        places[start] = long_digit(rest);
    }
    start
}

/// An array for the digits of a number.
#[derive(Clone, Copy)]
pub struct OctalBuffer {
    places: [u8; MOST_DIGITS],
}

impl OctalBuffer {
    /// An array for any number.
    pub fn new() -> OctalBuffer {
        OctalBuffer {
            places: [b'0'; MOST_DIGITS],
        }
    }

    /// A number in octal, with no zeros in front.
    pub fn format(&mut self, number: u64) -> &[u8]
        ensures value { result.now ≡ octal number }
        ensures short { length result.now ≤ 22 }
    {
        let start = write_octal(number, &mut self.places);
        &self.places[start..]
    }
}
