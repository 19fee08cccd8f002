// The calls on a picture: one entry, the judge, the matrix of a mode. Each makes its early checks, then fills the scratch and makes the
// closure that the answers go by.
#![tactic(auto)]

mod early;
mod pair;

ghost use Rattle.std.specs.Prelude.{◌≡◌};
ghost use Rattle.tables.specs.Rows.{shown};
ghost use Rattle.tables.specs.Refusals.{verdict_of};
ghost use Rattle.scratch.specs.Scratch.{scratch_after, early_fault, mode_early};
ghost use Rattle.meaning.specs.Meaning.{answer};
ghost use Rattle.answers.specs.Calls.{reply_of, entry_fault, judge_fault};
ghost use Rattle.answers.specs.Calls.{matrix_early, matrix_fault, bytes_after, numbers_after};

use base::filled;
use containment::Closure;
use early::{early_entry, early_matrix};
use judging::judge_picture;
use matrices::fill_picture;
pub use meaning::Entry;
pub use pair::answer_pair;
use pair::check_asked;
use scratch::{early_picture, fill_both};
use tables::{Refusal, Tables};

// The judge: `Ok` if no pair is unclear in any mode, else the first unclear pair. Checks 1 to 7, 9, 10, 12.
pub fn judge(t: Tables, scratch: &mut [u8]) -> Result<(), Refusal>
    ensures result_value { let pic = shown t.entry in
        result ≡ verdict_of (judge_fault pic scratch.old) }
    ensures scratch_after { let pic = shown t.entry in
        scratch.new
        ≡ scratch_after (early_fault pic scratch.old) pic.boxes pic.rows scratch.old }
{
    let mut closure: Closure = filled(0);
    early_picture(t, scratch)?;
    fill_both(t.boxes, t.rows, scratch, &mut closure)?;
    judge_picture(t, &closure)
}

// One entry. Checks 1 to 11.
pub fn one_entry(t: Tables, scratch: &mut [u8], u: u16, f: u16, mode: u16) -> Result<Entry, Refusal>
    ensures result_value { let pic = shown t.entry in
        result ≡ reply_of (entry_fault pic scratch.old mode u f) (answer pic mode u f) }
    ensures scratch_after { let pic = shown t.entry in
        scratch.new
        ≡ scratch_after (mode_early pic scratch.old mode) pic.boxes pic.rows scratch.old }
{
    let mut closure: Closure = filled(0);
    early_entry(t, scratch, mode)?;
    fill_both(t.boxes, t.rows, scratch, &mut closure)?;
    let u = usize::from(u);
    let f = usize::from(f);
    check_asked(t.boxes, t.rows, u, f)?;
    Ok(answer_pair(&closure, t.arrows, mode, u, f))
}

// The matrix of a mode: a byte (0 denied, 1 granted, 2 unclear) and a number (the arrow, or 65,535) for each pair. Checks 1 to 10.
pub fn matrix(
    t: Tables,
    scratch: &mut [u8],
    mode: u16,
    bytes: &mut [u8],
    numbers: &mut [u16],
) -> Result<(), Refusal>
    ensures result_value { let pic = shown t.entry in
        result ≡ verdict_of (matrix_fault pic scratch.old mode bytes.old numbers.old) }
    ensures scratch_after { let pic = shown t.entry in
        scratch.new
        ≡ scratch_after (matrix_early pic scratch.old mode bytes.old numbers.old)
        pic.boxes pic.rows scratch.old }
    ensures bytes_after { let pic = shown t.entry in
        bytes.new ≡ bytes_after pic scratch.old mode bytes.old numbers.old }
    ensures numbers_after { let pic = shown t.entry in
        numbers.new ≡ numbers_after pic scratch.old mode bytes.old numbers.old }
{
    let mut closure: Closure = filled(0);
    early_matrix(t, scratch, mode, bytes, numbers)?;
    fill_both(t.boxes, t.rows, scratch, &mut closure)?;
    fill_picture(t, &closure, mode, bytes, numbers);
    Ok(())
}
