// How an arrow stands to the list, on sets: for each user the files that the list does not reach yet (`left`) and those that are granted.
// Kept: a sign is the number that the table of arrows has, since the definition `wrong_at` speaks of it.
#![tactic(auto)]

ghost use Rattle.std.specs.Prelude.{◌≡◌, Bool, not, cond, ◌&&◌, ℕ, ◌<◌, eqb};
ghost use Rattle.base.specs.Steps.{any_below};
ghost use Rattle.tables.specs.Rows.{arrow_count, arrow_at};
ghost use Rattle.boxsets.specs.Sets.{is_in, in_word, has};
ghost use Rattle.mode_sets.specs.Steps.{Small};
ghost use Rattle.list_standing.specs.Steps.{Tells, some_in, wrong_at, standing_of, standing_by};

use boxsets::{Set, drop_bit, low_bit};
use containment::Closure;
use set_tables::{Table, set_at};
use tables::Arrow;

// How an arrow stands to a list: it would give a pair the wrong answer, it reaches nothing new, or it may follow.
#[derive(Clone, Copy, Debug, PartialEq, Eq)]
pub enum Standing {
    Blocked,
    Spent,
    Free,
}

// Whether the test holds of one of the numbers of word q of a set.
// Kept: no walk over the whole set. Arrows that are blocked are looked at again and again, and where their users lie in the later words a
// list takes up to 1.5 times as long with it.
fn any_in<F: Fn(usize) -> bool>(word: u64, q: usize, test: &F) -> bool
    requires below { q < 4 }
    requires callable { (k : ℕ) → k < 256 → F.pre test.now k }
    ensures { (p : ℕ → Bool) → Tells (F.post test.now) p → result ≡ any_below (λ k. in_word q word k && p k) 256 }
{
    let mut rest = word;
    while rest != 0 {
        let k = 64 * q + low_bit(rest);
        rest = drop_bit(rest);
        if test(k) {
            return true;
        }
    }
    false
}

// Whether the test holds of one of the numbers.
fn any_of<F: Fn(usize) -> bool>(numbers: Set, test: F) -> bool
    requires { (k : ℕ) → k < 256 → F.pre test k }
    ensures { (p : ℕ → Bool) → Tells (F.post test) p → result ≡ any_below (λ k. is_in numbers k && p k) 256 }
{
    any_in(numbers.a, 0, &test)
        || any_in(numbers.b, 1, &test)
        || any_in(numbers.c, 2, &test)
        || any_in(numbers.d, 3, &test)
}

// Whether a user has one of the files left.
fn has_left(user: usize, files: Set, left: &Table) -> bool
    requires { user < 256 }
    ensures { result ≡ any_below (λ f. is_in files f && has left.now user f) 256 }
{
    let met = files & set_at(left, user);
    !met.is_empty()
}

// Whether one of the users has one of the files left.
fn any_left(users: Set, files: Set, left: &Table) -> bool
    ensures { result ≡ some_in (is_in users) files (has left.now) }
{
    any_of(users, |u| has_left(u, files, left))
}

// Of files that are left, those to which an arrow of the sign would give the wrong answer.
fn wrong_of(files: Set, granted: Set, sign: u16) -> Set
    ensures { (f : ℕ) → is_in result f ≡ (is_in files f && cond (eqb sign 1) (not (is_in granted f)) (is_in granted f)) }
{
    if sign == 1 {
        files - granted
    } else {
        files & granted
    }
}

// Whether an arrow of the sign would give the wrong answer to one of the files that a user has left.
fn has_wrong(user: usize, files: Set, left: &Table, granted: &Table, sign: u16) -> bool
    requires { user < 256 }
    ensures { result ≡ any_below (λ f. is_in files f && wrong_at left.now granted.now sign user f) 256 }
{
    let met = files & set_at(left, user);
    let wrong = wrong_of(met, set_at(granted, user), sign);
    !wrong.is_empty()
}

// Whether it would to one of the files that one of the users has left.
fn any_wrong(users: Set, files: Set, left: &Table, granted: &Table, sign: u16) -> bool
    ensures { result ≡ some_in (is_in users) files (wrong_at left.now granted.now sign) }
{
    any_of(users, |u| has_wrong(u, files, left, granted, sign))
}

// How an arrow of the sign stands that reaches these users and files.
fn standing_of(users: Set, files: Set, left: &Table, granted: &Table, sign: u16) -> Standing
    ensures { result ≡ standing_of (some_in (is_in users) files (wrong_at left.now granted.now sign))
        (some_in (is_in users) files (has left.now)) }
{
    if !any_left(users, files, left) {
        return Standing::Spent;
    }
    if any_wrong(users, files, left, granted, sign) {
        return Standing::Blocked;
    }
    Standing::Free
}

// How arrow k stands, by the closure.
pub fn look(closure: &Closure, arrows: &[u16], left: &Table, granted: &Table, k: usize) -> Standing
    requires { Small arrows.now × (k < arrow_count arrows.now) }
    ensures { result ≡ standing_by closure.now left.now granted.now (arrow_at arrows.now k) }
{
    let a = Arrow::at(arrows, k);
    let users = set_at(closure, usize::from(a.tail));
    let files = set_at(closure, usize::from(a.head));
    standing_of(users, files, left, granted, a.sign)
}
