// Judging: the first unclear pair of a mode, and of all modes.
#![tactic(auto)]

mod atom_sets;

ghost use Rattle.std.specs.Prelude.{◌≡◌, ◌&&◌, ℕ, ◌<◌};
ghost use Rattle.tables.specs.Rows.{Picture, user, file};
ghost use Rattle.tables.specs.Rows.{shown};
ghost use Rattle.tables.specs.Atoms.{atom, atoms};
ghost use Rattle.tables.specs.Refusals.{verdict_of};
ghost use Rattle.boxsets.specs.Sets.{is_in, Boxes};
ghost use Rattle.meaning.specs.Meaning.{positive, negative};
ghost use Rattle.meaning.specs.Pairs.{unclear_fault, any_unclear};
ghost use Rattle.mode_sets.specs.Steps.{Small};
ghost use Rattle.certificates.specs.Steps.{Drawn};
ghost use Rattle.user_rows.specs.Steps.{Sized, Moded};
ghost use Rattle.judging.specs.Steps.{Signed, sign_used};

pub use atom_sets::atom_set;
use atoms::atoms_of;
use base::filled;
use boxsets::Set;
use containment::Closure;
use mode_sets::{Heads, take_mode};
use set_tables::{add, set_at};
use tables::{Arrow, BoxRow, Refusal, Tables};
use user_kinds::{Notes, alike};
use user_rows::sort_row;

// Check 12 for a mode, by its arrows: row by row, and in a row the lowest file. A user who is answered as one before has no unclear pair
// either.
fn judge_rows(
    closure: &Closure,
    heads: &Heads,
    arrows: &[u16],
    own: &[u16],
    mode: u16,
    users: &[u16],
    files: Set,
) -> Result<(), Refusal>
    requires { Sized closure.now heads.now arrows.now own.now × Boxes users.now }
    ensures { (pic : Picture) → Drawn pic closure.now
        → Moded pic mode heads.now arrows.now own.now
        → users.now ≡ atoms pic.boxes pic.rows user
        → ((f : ℕ) → is_in files f ≡ atom pic.boxes pic.rows file f)
        → result ≡ verdict_of (unclear_fault pic mode) }
{
    let mut notes: Notes = filled(0);
    for (i, &user) in users.iter().enumerate() {
        if alike(closure, heads, users, i, &mut notes) < i {
            continue;
        }
        let u = usize::from(user);
        let row = sort_row(closure, heads, arrows, own, u, files);
        if let Some(f) = row.unclear.first() {
            return Err(Refusal::UnclearPair(usize::from(mode), u, f));
        }
    }
    Ok(())
}

// The modes that have arrows of both signs. Another one has no unclear pair.
fn clashing(arrows: &[u16]) -> Set
    requires { Signed arrows.now }
    ensures { (m : ℕ) → is_in result m
        ≡ (sign_used arrows.now m negative && sign_used arrows.now m positive) }
{
    let mut signs: [u64; 8] = filled(0);
    // Kept: no iterator over the numbers, since an arrow is four of them and `Arrow::at` reads arrow k.
    for k in 0..arrows.len() / 4 {
        let a = Arrow::at(arrows, k);
        add(&mut signs, usize::from(a.sign), usize::from(a.mode));
    }
    set_at(&signs, 0) & set_at(&signs, 1)
}

// Check 12 for a mode; `both` has the modes that have arrows of both signs.
// Kept: an array and a count, here and below, since there is no heap (fixed memory).
fn judge_mode(
    closure: &Closure,
    arrows: &[u16],
    mode: u16,
    both: Set,
    users: &[u16],
    files: Set,
) -> Result<(), Refusal>
    requires { Small arrows.now × (mode < 256) × Boxes users.now }
    ensures { (pic : Picture) → Drawn pic closure.now → arrows.now ≡ pic.arrows
        → users.now ≡ atoms pic.boxes pic.rows user
        → ((f : ℕ) → is_in files f ≡ atom pic.boxes pic.rows file f)
        → is_in both mode ≡ (sign_used pic.arrows mode negative && sign_used pic.arrows mode positive)
        → result ≡ verdict_of (unclear_fault pic mode) }
{
    if !both.contains(usize::from(mode)) {
        return Ok(());
    }
    let mut own: [u16; Arrow::LIMIT] = filled(0);
    let mut heads: Heads = filled(0);
    let count = take_mode(arrows, mode, &mut own, &mut heads);
    judge_rows(closure, &heads, arrows, &own[..count], mode, users, files)
}

// Check 12 for all modes.
fn judge_modes(closure: &Closure, arrows: &[u16], users: &[u16], files: Set) -> Result<(), Refusal>
    requires { Small arrows.now × Signed arrows.now × Boxes users.now }
    ensures { (pic : Picture) → Drawn pic closure.now → arrows.now ≡ pic.arrows
        → users.now ≡ atoms pic.boxes pic.rows user
        → ((f : ℕ) → is_in files f ≡ atom pic.boxes pic.rows file f)
        → result ≡ verdict_of (any_unclear pic) }
{
    let both = clashing(arrows);
    for m in 0..8 {
        judge_mode(closure, arrows, m, both, users, files)?;
    }
    Ok(())
}

// Check 12 of a picture, by its closure.
pub fn judge_picture(t: Tables, closure: &Closure) -> Result<(), Refusal>
    requires { Drawn (shown t) closure.now }
    ensures { result ≡ verdict_of (any_unclear (shown t.entry)) }
{
    let mut users: [u16; BoxRow::LIMIT] = filled(0);
    let count = atoms_of(t.boxes, t.rows, BoxRow::USER, &mut users);
    judge_modes(
        closure,
        t.arrows,
        &users[..count],
        atom_set(t.boxes, t.rows, BoxRow::FILE),
    )
}
