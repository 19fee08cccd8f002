// How numbers and tables are read from the input.
ghost use Rattle.std.specs.Prelude.{◌≡◌, ◌<◌, ◌≤◌, length, take};

use super::buffers::{Place, lent};
use std::io::Read;

// A number of the input, and the byte after it.
#[derive(Clone, Copy)]
pub struct Word {
    pub value: usize,
    pub end: u8,
}

// The next byte, or 0 at the end or where a read fails.
fn next_byte<R: Read>(input: &mut R) -> u8 {
    let mut b = [0u8; 1];
    let _ = input.read(&mut b);
    b[0]
}

// The next number, of at most five digits. What ends one comes before the digits in ASCII.
pub fn number<R: Read>(input: &mut R) -> Word
    ensures { result.value < 100000 }
{
    let mut value = 0;
    for _ in 0..6usize {
        let c = next_byte(input);
        if c < b'0' {
            return Word { value, end: c };
        }
        value = (10 * value + usize::from(c % b'0')) % 100000;
    }
    Word { value, end: 0 }
}

// What the next places of a table hold, and how many they are.
#[derive(Clone, Copy)]
struct Same {
    value: usize,
    left: usize,
}

impl Same {
    // The same, one place on.
    fn next<R: Read>(self, input: &mut R) -> Self {
        if 1 < self.left {
            return Self {
                value: self.value,
                left: self.left - 1,
            };
        }
        let n = number(input);
        let left = if n.end == b'*' {
            number(input).value
        } else {
            1
        };
        Self {
            value: n.value,
            left,
        }
    }
}

// Reads a table into the first places, and answers how many it has of them.
pub fn table<R: Read, T: Place>(input: &mut R, out: &mut [T]) -> usize
    ensures within { result ≤ length out.new }
    ensures taken { result ≡ length (take result out.new) }
{
    let count = number(input).value;
    let mut run = Same { value: 0, left: 0 };
    let mut places = out.iter_mut();
    for _ in 0..count {
        run = run.next(input);
        if let Some(place) = places.next() {
            *place = T::low(run.value);
        }
    }
    lent(out, count)
}
