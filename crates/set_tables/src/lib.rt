// Tables of sets: set r has the four words from place 4 × r on.
#![tactic(auto)]

ghost use Rattle.std.specs.Prelude.{◌≡◌, ◌&&◌, ◌||◌, ℕ, ◌+◌, ◌*◌, ◌<◌, ◌≤◌, length};
ghost use Rattle.base.specs.Steps.{any_below};
ghost use Rattle.boxsets.specs.Sets.{is_in, set_at, has, Put, Added, Joins};

use boxsets::Set;

// A table with a set for each box that a picture can have.
pub type Table = [u64; 1024];

pub fn set_at(t: &[u64], r: usize) -> Set
    requires { 4 * r + 4 ≤ length t.now }
    ensures { result ≡ set_at t.now r }
{
    Set {
        a: t[4 * r],
        b: t[4 * r + 1],
        c: t[4 * r + 2],
        d: t[4 * r + 3],
    }
}

pub fn put_set(t: &mut [u64], r: usize, x: Set)
    requires { 4 * r + 4 ≤ length t.old }
    ensures { Put t.old r x t.new }
{
    t[4 * r] = x.a;
    t[4 * r + 1] = x.b;
    t[4 * r + 2] = x.c;
    t[4 * r + 3] = x.d;
}

// Whether set r has k.
pub fn has(t: &[u64], r: usize, k: usize) -> bool
    requires { (4 * r + 4 ≤ length t.now) × (k < 256) }
    ensures { result ≡ has t.now r k }
{
    (t[4 * r + k / 64] >> (k % 64)) % 2 == 1
}

// Adds k to set r.
pub fn add(t: &mut [u64], r: usize, k: usize)
    requires { (4 * r + 4 ≤ length t.old) × (k < 256) }
    ensures { Added t.old r k t.new }
{
    let i = 4 * r + k / 64;
    t[i] |= 1u64 << (k % 64);
}

// Joins a set to each set `from` + k whose k is one of the numbers.
pub fn join_each(t: &mut [u64], from: usize, numbers: Set, x: Set)
    requires { 4 * (from + 256) ≤ length t.old }
    ensures { Joins from (is_in numbers) x t.old t.new }
{
    for k in numbers {
        let y = set_at(t, from + k) | x;
        put_set(t, from + k, y);
    }
}

// The union of the sets `from` + k whose k is one of the numbers.
pub fn union_of(t: &[u64], from: usize, numbers: Set) -> Set
    requires { 4 * (from + 256) ≤ length t.now }
    ensures { (b : ℕ) → is_in result b ≡ any_below (λ k. is_in numbers k && has t.now (from + k) b) 256 }
{
    let mut found = Set::empty();
    for k in numbers {
        found = found | set_at(t, from + k);
    }
    found
}
