// The files at which an arrow is a certificate, as a set.
//
// In what follows `closure` is the table of containment (crate `containment`): set b has the boxes that b is or contains, set 256 + b those
// that are b or contain it. `heads` is what `mode_sets::take_mode` makes of the arrows of a mode.
//
// Kept: the bounds of an arrow's ends and of a user are clauses and no type: `Arrow::at` promises the row of any table, and `arrows_near`
// and `certified` take numbers as it gives them.
#![tactic(auto)]

ghost use Rattle.std.specs.Prelude.{◌≡◌, Bool, not, ◌&&◌, ℕ, ◌+◌, ◌*◌, ◌<◌, ◌≤◌, T, length};
ghost use Rattle.base.specs.Steps.{any_below};
ghost use Rattle.tables.specs.Rows.{Picture};
ghost use Rattle.boxsets.specs.Sets.{is_in, has};
ghost use Rattle.mode_sets.specs.Steps.{ModeSets};
ghost use Rattle.certificates.specs.Blocks.{in_one, blocks, certified};
ghost use Rattle.certificates.specs.Steps.{Drawn, NearBy, sign_number};

use boxsets::Set;
use containment::Closure;
use mode_sets::Heads;
use set_tables::{set_at, union_of};
use tables::Arrow;

// The two signs of arrows.
#[derive(Clone, Copy, Debug, PartialEq, Eq)]
pub enum Sign {
    Negative,
    Positive,
}

impl Sign {
    // The sign of an arrow.
    pub fn of(a: Arrow) -> Sign
        requires { a.sign ≤ 1 }
        ensures { sign_number result ≡ a.sign }
    {
        if a.sign == 0 {
            Sign::Negative
        } else {
            Sign::Positive
        }
    }
}

// The number that stands for a sign in the table of arrows.
impl From<Sign> for usize {
    ghost from_gives = { λ s n. n ≡ sign_number s };

    fn from(s: Sign) -> Self {
        match s {
            Sign::Negative => 0,
            Sign::Positive => 1,
        }
    }
}

// The mode's arrows of a sign around a user: their tails, their heads, and the asked files that they reach.
#[derive(Clone, Copy, Debug)]
pub struct Near {
    pub sign: Sign,
    pub tails: Set,
    pub heads: Set,
    pub files: Set,
}

// The boxes that are nested in b. What overrides what goes by this and by `nesting` alone.
fn nested_in(closure: &Closure, b: usize) -> Set
    requires { b < 256 }
    ensures { (k : ℕ) → is_in result k ≡ (has closure.now b k && not (has closure.now (256 + b) k)) }
{
    set_at(closure, b) - set_at(closure, 256 + b)
}

// The boxes in which b is nested.
// Kept: beside `nested_in`, since one function for both would take a flag or two numbers, and say no more than these two lines.
fn nesting(closure: &Closure, b: usize) -> Set
    requires { b < 256 }
    ensures { (k : ℕ) → is_in result k ≡ (has closure.now (256 + b) k && not (has closure.now b k)) }
{
    set_at(closure, 256 + b) - set_at(closure, b)
}

// The heads of the mode's arrows of a sign from some tails.
fn heads_of(heads: &Heads, sign: Sign, tails: Set) -> Set
    ensures { (g : ℕ) → is_in result g ≡ any_below (λ t. is_in tails t && has heads.now (256 * sign_number sign + t) g) 256 }
{
    union_of(heads, 256 * usize::from(sign), tails)
}

// The files of a set that are in none of the boxes. What a box has is done with it, boxes and files. Each turn takes at least the lowest
// box, which has itself, so 256 turns are enough.
// Kept: a counted loop. A `while let` ends only if each box is taken out besides, and tried so it made judge and matrix take 1.04 to
// 1.13 times the instructions.
fn outside_all(closure: &Closure, files: Set, boxes: Set) -> Set
    ensures { (pic : Picture) → Drawn pic closure.now
        → ((b : ℕ) → T (is_in boxes b) → b < length pic.boxes)
        → (f : ℕ) → is_in result f ≡ (is_in files f && not (in_one pic (is_in boxes) f)) }
{
    let mut left = files;
    let mut rest = boxes;
    for turn in 0..256usize {
        let Some(b) = rest.first() else {
            return left;
        };
        if left.is_empty() {
            return left;
        }
        let gone = set_at(closure, b);
        rest = rest - gone;
        left = left - gone;
    }
    left
}

// The arrows of a sign around a user.
pub fn arrows_near(closure: &Closure, heads: &Heads, sign: Sign, user: usize, asked: Set) -> Near
    requires { user < 256 }
    ensures sign_value { result.sign ≡ sign }
    ensures near_by { (pic : Picture) (m : ℕ) → Drawn pic closure.now → ModeSets pic.arrows m heads.now
        → user < length pic.boxes → NearBy pic m (sign_number sign) user (is_in asked) result }
{
    let tails = set_at(closure, 256 + user) & set_at(heads, 512 + usize::from(sign));
    let all = heads_of(heads, sign, tails);
    let files = asked - outside_all(closure, asked, all);
    Near {
        sign,
        tails,
        heads: all,
        files,
    }
}

// Of some files in the arrow's head, those at which it is a certificate, given the opposite arrows around the user: no file in the head of
// one that it does not override. It does not override an arrow whose head is nested in its own, one whose tail is nested in its own, and
// one neither of whose ends has its own nested in it.
fn unblocked(closure: &Closure, heads: &Heads, near: &Near, a: Arrow, files: Set) -> Set
    requires { (a.tail < 256) × (a.head < 256) }
    ensures { (pic : Picture) (m u : ℕ) (asked : ℕ → Bool) → Drawn pic closure.now
        → ModeSets pic.arrows m heads.now → NearBy pic m (sign_number near.now.sign) u asked near.now
        → (a.tail < length pic.boxes) × (a.head < length pic.boxes) × (u < length pic.boxes)
        → (f : ℕ) → is_in result f ≡ (is_in files f && not (in_one pic (blocks pic m (sign_number near.now.sign) u a) f)) }
{
    let tail = usize::from(a.tail);
    let head = usize::from(a.head);
    let by_head = outside_all(closure, files, near.heads & nested_in(closure, head));
    if by_head.is_empty() {
        return by_head;
    }
    let inner = near.tails & nested_in(closure, tail);
    let by_tail = outside_all(closure, by_head, heads_of(heads, near.sign, inner));
    if by_tail.is_empty() {
        return by_tail;
    }
    let level = heads_of(heads, near.sign, near.tails - nesting(closure, tail));
    outside_all(closure, by_tail, level - nesting(closure, head))
}

// Of the files that are left, those at which an arrow around the user is a certificate. A file that no opposite arrow reaches needs no look
// at those.
pub fn certified(closure: &Closure, heads: &Heads, near: &Near, a: Arrow, left: Set) -> Set
    requires { (a.tail < 256) × (a.head < 256) }
    ensures { (pic : Picture) (m u : ℕ) (asked : ℕ → Bool) → Drawn pic closure.now
        → ModeSets pic.arrows m heads.now → NearBy pic m (sign_number near.now.sign) u asked near.now
        → (a.tail < length pic.boxes) × (a.head < length pic.boxes) × (u < length pic.boxes)
        → ((f : ℕ) → T (is_in left f) → T (asked f))
        → (f : ℕ) → is_in result f ≡ (is_in left f && certified pic m (sign_number near.now.sign) u a f) }
{
    let hit = set_at(closure, usize::from(a.head)) & left;
    let met = hit & near.files;
    if met.is_empty() {
        return hit;
    }
    (hit - met) | unblocked(closure, heads, near, a, met)
}
