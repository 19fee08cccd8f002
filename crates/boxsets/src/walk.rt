// A walk over the numbers of a set.
ghost use Rattle.std.specs.Prelude.{◌≡◌, ℕ, ◌-◌};
ghost use Rattle.std.specs.Iterator.{at_most};
ghost use Rattle.boxsets.specs.Sets.{is_in, least};
ghost use Rattle.boxsets.specs.Members.{to_come, NextOf};

use crate::{Members, Set, drop_bit, low_bit};

impl Iterator for Members {
    type Item = usize;

    ghost next_gives = { NextOf };

    ghost remaining = { λ s. at_most (256 - least (to_come s) 256) };

    fn next(&mut self) -> Option<usize> {
        let mut from = self.from;
        let mut rest = self.rest;
        while rest.a == 0 {
            if rest.is_empty() {
                return None;
            }
            rest = Set {
                a: rest.b,
                b: rest.c,
                c: rest.d,
                d: 0,
            };
            from += 64;
        }
        let k = from + low_bit(rest.a);
        rest.a = drop_bit(rest.a);
        *self = Members { from, rest };
        Some(k)
    }
}

// `for k in x` goes over the numbers of the set x, rising.
impl IntoIterator for Set {
    type Item = usize;

    type IntoIter = Members;

    ghost into_iter_gives = { λ x s. (k : ℕ) → to_come s k ≡ is_in x k };

    fn into_iter(self) -> Members {
        Members {
            from: 0,
            rest: self,
        }
    }
}
