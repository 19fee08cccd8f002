// The buffers of a call, of bytes or of numbers, and how many of their places are lent. Kept: arrays with a count beside them, since there
// is no heap here and the calls are lent parts of arrays.
ghost use Rattle.std.specs.Prelude.{◌≡◌, ℕ, ◌%◌, ◌≤◌, length, take};

// Every buffer has so many places.
pub const PLACES: usize = 65600;

// What a place of a buffer holds: a byte or a number of 16 bits.
pub trait Place: Copy + PartialEq + Into<usize> {
    // What a number is where a place holds its lowest bits.
    ghost lowest: { ℕ → Self };

    // What a place holds before a call: it is not 0.
    const FRESH: Self;

    fn low(x: usize) -> Self
        ensures { result ≡ lowest x };
}

impl Place for u8 {
    ghost lowest = { λ x. x % 256 };

    const FRESH: u8 = 170;

    fn low(x: usize) -> u8 {
        (x % 256) as u8
    }
}

impl Place for u16 {
    ghost lowest = { λ x. x % 65536 };

    const FRESH: u16 = 43690;

    fn low(x: usize) -> u16 {
        (x % 65536) as u16
    }
}

// A buffer before a call.
pub fn buffer<T: Place>() -> [T; PLACES]
    ensures { 65600 ≡ length result }
{
    [T::FRESH; PLACES]
}

// So many places of a buffer, or all if it has fewer.
pub fn lent<T>(s: &[T], n: usize) -> usize
    ensures within { result ≤ length s.now }
    ensures taken { result ≡ length (take result s.now) }
{
    n.min(s.len())
}
