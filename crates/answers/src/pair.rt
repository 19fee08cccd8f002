// One pair.
ghost use Rattle.std.specs.Prelude.{◌≡◌, ◌&&◌, ◌%◌, ◌<◌, length};
ghost use Rattle.tables.specs.Rows.{Picture, user, file};
ghost use Rattle.tables.specs.Atoms.{atom};
ghost use Rattle.tables.specs.Refusals.{verdict_of};
ghost use Rattle.meaning.specs.Meaning.{answer};
ghost use Rattle.mode_sets.specs.Steps.{Small};
ghost use Rattle.certificates.specs.Steps.{Drawn};
ghost use Rattle.answers.specs.Calls.{asked_fault};

use atoms::is_atom;
use base::filled;
use boxsets::Set;
use containment::Closure;
use meaning::Entry;
use mode_sets::{Heads, take_mode};
use tables::{Arrow, BoxRow, Refusal, refuse_if};
use user_rows::{answer_row, entry_of};

// Whether u is an atomic user and f an atomic file.
fn is_pair(boxes: &[u8], rows: &[u16], u: usize, f: usize) -> bool
    requires { length rows.now % 2 ≡ 0 }
    ensures { result ≡ (atom boxes.now rows.now user u
        && atom boxes.now rows.now file f) }
{
    is_atom(boxes, rows, BoxRow::USER, u) && is_atom(boxes, rows, BoxRow::FILE, f)
}

// Check 11.
pub fn check_asked(boxes: &[u8], rows: &[u16], u: usize, f: usize) -> Result<(), Refusal>
    requires { length rows.now % 2 ≡ 0 }
    ensures { result ≡ verdict_of (asked_fault boxes.now rows.now u f) }
{
    refuse_if(!is_pair(boxes, rows, u, f), Refusal::NotAtomic(u, f))
}

// The answer for a pair of one mode: a row with one file.
// Kept: an array and a count, since there is no heap (fixed memory).
pub fn answer_pair(closure: &Closure, arrows: &[u16], mode: u16, u: usize, f: usize) -> Entry
    requires { Small arrows.now × (u < 256) × (f < 256) }
    ensures { (pic : Picture) → Drawn pic closure.now → arrows.now ≡ pic.arrows
        → u < length pic.boxes → f < length pic.boxes → result ≡ answer pic mode u f }
{
    let mut own: [u16; Arrow::LIMIT] = filled(0);
    let mut heads: Heads = filled(0);
    let count = take_mode(arrows, mode, &mut own, &mut heads);
    let own = &own[..count];
    let mut found: [u16; BoxRow::LIMIT] = filled(Arrow::NONE);
    let asked = Set::single(f);
    let row = answer_row(closure, &heads, arrows, own, u, asked, &mut found);
    entry_of(closure, arrows, mode, row, u, f, found[f])
}
