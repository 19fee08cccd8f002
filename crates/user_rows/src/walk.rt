// A row: one user and some files.
ghost use Rattle.std.specs.Prelude.{◌≡◌, Bool, ◌&&◌, ◌||◌, ℕ, ◌+◌, ◌<◌, ◌≤◌, T, eqb, length, get_or};
ghost use Rattle.base.specs.Search.{lowest};
ghost use Rattle.tables.specs.Rows.{Picture, arrow_at, arrow_count};
ghost use Rattle.meaning.specs.Meaning.{has_mode, hits, answer, number_of};
ghost use Rattle.boxsets.specs.Sets.{is_in, has};
ghost use Rattle.mode_sets.specs.Steps.{Small, ModeSets};
ghost use Rattle.certificates.specs.Steps.{Drawn, sign_number};
ghost use Rattle.user_rows.specs.Row.{shows};
ghost use Rattle.user_rows.specs.Steps.{Sized, Moded, AroundBy, Walked, Sorts, blank_row};

use super::Row;
use super::around::Around;
use super::numbers::Numbers;
use boxsets::Set;
use certificates::{Sign, arrows_near, certified};
use containment::Closure;
use meaning::Entry;
use mode_sets::Heads;
use set_tables::has;
use tables::{Arrow, BoxRow};

fn around_user(closure: &Closure, heads: &Heads, user: usize, asked: Set) -> Around
    requires { user < 256 }
    ensures user_value { result.user ≡ user }
    ensures around_by { (pic : Picture) (m : ℕ) → Drawn pic closure.now → ModeSets pic.arrows m heads.now
        → user < length pic.boxes → AroundBy pic m user (is_in asked) result }
{
    Around {
        user,
        negative: arrows_near(closure, heads, Sign::Negative, user, asked),
        positive: arrows_near(closure, heads, Sign::Positive, user, asked),
    }
}

// Of the files left, those at which an arrow around the user is a certificate.
fn shown(closure: &Closure, heads: &Heads, x: &Around, a: Arrow, left: Set) -> Set
    requires { (a.tail < 256) × (a.head < 256) × (a.sign ≤ 1) }
    ensures { (pic : Picture) (m u k : ℕ) (asked : ℕ → Bool) → Drawn pic closure.now
        → ModeSets pic.arrows m heads.now → AroundBy pic m u asked x.now → u < length pic.boxes
        → k < arrow_count pic.arrows → a ≡ arrow_at pic.arrows k → T (has_mode pic.arrows m k)
        → T (has closure.now (256 + u) a.tail) → ((f : ℕ) → T (is_in left f) → T (asked f))
        → (f : ℕ) → is_in result f ≡ (is_in left f && shows pic m u f k) }
{
    match Sign::of(a) {
        Sign::Positive => certified(closure, heads, &x.negative, a, left),
        Sign::Negative => certified(closure, heads, &x.positive, a, left),
    }
}

// Walks the mode's arrows around the user in rising order, and takes from the files those at which the arrow is a certificate: it is their
// lowest one. Its number is put for them, and those of a positive one are granted; what is left at the end has none.
fn walk<N: Numbers>(
    closure: &Closure,
    heads: &Heads,
    arrows: &[u16],
    own: &[u16],
    x: Around,
    files: Set,
    numbers: &mut N,
) -> Row
    requires { Sized closure.now heads.now arrows.now own.now × (x.user < 256) }
    ensures { (pic : Picture) (m : ℕ) (asked : ℕ → Bool) → Drawn pic closure.now
        → Moded pic m heads.now arrows.now own.now → AroundBy pic m x.user asked x
        → x.user < length pic.boxes → ((f : ℕ) → T (is_in files f) → T (asked f))
        → (before : ℕ → ℕ) → N.shows numbers.old before → (after : ℕ → ℕ)
        × Walked pic m x.user (is_in files) (is_in result.unclear) (is_in result.granted) before after (length own.now)
        × N.shows numbers.new after }
{
    let mut granted = Set::empty();
    let mut unclear = files;
    for k in own {
        let a = Arrow::at(arrows, usize::from(*k));
        if !has(closure, 256 + x.user, usize::from(a.tail)) {
            continue;
        }
        if unclear.is_empty() {
            break;
        }
        let hit = shown(closure, heads, &x, a, unclear);
        unclear = unclear - hit;
        if Sign::of(a) == Sign::Positive {
            granted = granted | hit;
        }
        numbers.put(hit, *k);
    }
    Row { granted, unclear }
}

// The row of a user for the asked files. A file that arrows of one sign only reach is settled without a look at them one by one.
pub fn sort_row(
    closure: &Closure,
    heads: &Heads,
    arrows: &[u16],
    own: &[u16],
    user: usize,
    asked: Set,
) -> Row
    requires { Sized closure.now heads.now arrows.now own.now × (user < 256) }
    ensures { (pic : Picture) (m : ℕ) → Drawn pic closure.now
        → Moded pic m heads.now arrows.now own.now → user < length pic.boxes
        → Sorts pic m user (is_in asked) result }
{
    let x = around_user(closure, heads, user, asked);
    let clash = x.negative.files & x.positive.files;
    if clash.is_empty() {
        return Row {
            granted: x.positive.files,
            unclear: clash,
        };
    }
    let found = walk(closure, heads, arrows, own, x, clash, &mut ());
    Row {
        granted: (x.positive.files - clash) | found.granted,
        unclear: found.unclear,
    }
}

// The same, and the number of the arrow of each asked file, by box number.
// Kept: 65,535 for no arrow, since the matrix shows it so across the C interface.
pub fn answer_row(
    closure: &Closure,
    heads: &Heads,
    arrows: &[u16],
    own: &[u16],
    user: usize,
    asked: Set,
    numbers: &mut [u16; BoxRow::LIMIT],
) -> Row
    requires { Sized closure.now heads.now arrows.now own.now × (user < 256) × (numbers.old ≡ blank_row) }
    ensures { (pic : Picture) (m : ℕ) → Drawn pic closure.now
        → Moded pic m heads.now arrows.now own.now → user < length pic.boxes
        → Sorts pic m user (is_in asked) result
        × ((f : ℕ) → T (is_in asked f) → get_or numbers.new f 0 ≡ number_of (answer pic m user f)) }
{
    let x = around_user(closure, heads, user, asked);
    let reached = x.negative.files | x.positive.files;
    walk(closure, heads, arrows, own, x, reached, numbers)
}

// The lowest arrow of a mode and a sign that reaches the pair.
// Kept: a loop, since `find` over the numbers is no shorter, and its answer would need a law about ranges.
fn first_hit(
    closure: &Closure,
    arrows: &[u16],
    mode: u16,
    sign: Sign,
    u: usize,
    f: usize,
) -> Option<u16>
    requires { Small arrows.now × (u < 256) × (f < 256) }
    ensures { (pic : Picture) → Drawn pic closure.now → arrows.now ≡ pic.arrows
        → u < length pic.boxes → f < length pic.boxes
        → result ≡ lowest (hits pic mode (sign_number sign) u f) (arrow_count pic.arrows) }
{
    for k in 0..arrows.len() / 4 {
        let a = Arrow::at(arrows, k);
        if a.mode == mode
            && Sign::of(a) == sign
            && has(closure, 256 + u, usize::from(a.tail))
            && has(closure, 256 + f, usize::from(a.head))
        {
            return Some(k as u16);
        }
    }
    None
}

// The answer of a pair, by its row and its number in it.
pub fn entry_of(
    closure: &Closure,
    arrows: &[u16],
    mode: u16,
    row: Row,
    u: usize,
    f: usize,
    number: u16,
) -> Entry
    requires { Small arrows.now × (u < 256) × (f < 256) }
    ensures { (pic : Picture) (asked : ℕ → Bool) → Drawn pic closure.now → arrows.now ≡ pic.arrows
        → u < length pic.boxes → f < length pic.boxes → T (asked f)
        → Sorts pic mode u asked row → number ≡ number_of (answer pic mode u f)
        → result ≡ answer pic mode u f }
{
    if row.granted.contains(f) {
        return Entry::Granted(number);
    }
    if row.unclear.contains(f) {
        // Arrows of both signs reach an unclear pair.
        return Entry::Unclear(
            first_hit(closure, arrows, mode, Sign::Positive, u, f).unwrap_or(Arrow::NONE),
            first_hit(closure, arrows, mode, Sign::Negative, u, f).unwrap_or(Arrow::NONE),
        );
    }
    if number < Arrow::NONE {
        return Entry::Denied(number);
    }
    Entry::Default
}
