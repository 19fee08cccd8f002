// The first-match list of a mode.
#![tactic(auto)]

mod stages;

ghost use Rattle.std.specs.Prelude.{◌≡◌, ℕ, ◌≤◌, length};
ghost use Rattle.tables.specs.Rows.{user, file};
ghost use Rattle.tables.specs.Atoms.{atom, atoms, pair_count};
ghost use Rattle.tables.specs.Rows.{shown};
ghost use Rattle.tables.specs.Steps.{SoundRows};
ghost use Rattle.tables.specs.Refusals.{verdict_of};
ghost use Rattle.boxsets.specs.Sets.{is_in};
ghost use Rattle.scratch.specs.Scratch.{scratch_after};
ghost use Rattle.meaning.specs.Meaning.{mode_arrows};
ghost use Rattle.certificates.specs.Steps.{Drawn};
ghost use Rattle.list_meaning.specs.Calls.{list_early, list_before, list_answer, list_after, work_after};
ghost use Rattle.list_meaning.specs.Steps.{Listing};

use atoms::{atoms_of, pair_count};
use base::filled;
use boxsets::Set;
use checks::{check_mode, check_room};
use containment::Closure;
use list_sets::Asked;
use scratch::{check_scratch, fill_both};
use stages::{list_mode, mode_count};
use tables::{BoxRow, Refusal, Tables};

// Checks 1 to 9.
fn early_list(t: Tables, scratch: &[u8], mode: u16, out: &[u16], work: &[u8]) -> Result<(), Refusal>
    ensures { let pic = shown t.entry in
        result ≡ verdict_of (list_early pic mode scratch.now out.now work.now) }
{
    checks::check(t)?;
    check_mode(mode)?;
    check_scratch(t.boxes, scratch)?;
    check_room(3, out.len(), mode_count(t.arrows, mode))?;
    check_room(4, work.len(), pair_count(t.boxes, t.rows))
}

// What is asked, by the number of atomic users.
// Kept: the atomic files lie in a buffer for all boxes, of which the first are lent on (fixed memory).
fn asked_of(boxes: &[u8], rows: &[u16], mode: u16, count: usize) -> Asked
    requires { SoundRows boxes.now rows.now × (count ≡ length (atoms boxes.now rows.now user)) }
    ensures { (result.mode ≡ mode) × ((b : ℕ) → is_in result.files b ≡ atom boxes.now rows.now file b)
        × (result.pairs ≡ pair_count boxes.now rows.now) }
{
    let mut numbers: [u16; BoxRow::LIMIT] = filled(0);
    let file_count = atoms_of(boxes, rows, BoxRow::FILE, &mut numbers);
    let files = Set::of(&numbers[..file_count]);
    Asked {
        mode,
        files,
        pairs: count * file_count,
    }
}

// Check 12, then the list, by the closure of a picture that passed checks 1 to 10.
// Kept: the atomic users lie in a buffer for all boxes, of which the first are lent on (fixed memory).
fn write_list(
    t: Tables,
    closure: &Closure,
    mode: u16,
    out: &mut [u16],
    work: &mut [u8],
) -> Result<usize, Refusal>
    requires drawn { Drawn (shown t) closure.now }
    requires mode_in_bounds { (length (mode_arrows t.arrows.now mode) ≤ length out.old)
        × (pair_count t.boxes.now t.rows.now ≤ length work.old) }
    ensures { Listing (shown t.entry) mode out.old work.old result out.new work.new }
{
    let mut users: [u16; BoxRow::LIMIT] = filled(0);
    let count = atoms_of(t.boxes, t.rows, BoxRow::USER, &mut users);
    let asked = asked_of(t.boxes, t.rows, mode, count);
    list_mode(closure, t.arrows, &users[..count], asked, out, work)
}

// The first-match list of a mode (document 01, "What may be asked"), in the order of document 02, P3: how many places of `out` hold it,
// or the refusal. Checks 1 to 10, 12 in this mode, and 13. The scratch needs a byte for each pair of boxes, `out` a place for each
// arrow of the mode, and `work` a byte for each pair.
pub fn list(
    t: Tables,
    scratch: &mut [u8],
    mode: u16,
    out: &mut [u16],
    work: &mut [u8],
) -> Result<usize, Refusal>
    ensures result_value { let pic = shown t.entry in
        result ≡ list_answer pic mode (list_before pic mode scratch.old out.old work.old) }
    ensures scratch_after { let pic = shown t.entry in
        scratch.new ≡ scratch_after (list_early pic mode scratch.old out.old work.old)
        pic.boxes pic.rows scratch.old }
    ensures out_after { let pic = shown t.entry in
        out.new ≡ list_after pic mode
        (list_before pic mode scratch.old out.old work.old) out.old }
    ensures work_after { let pic = shown t.entry in
        work.new ≡ work_after pic mode
        (list_before pic mode scratch.old out.old work.old) work.old }
{
    early_list(t, scratch, mode, out, work)?;
    let mut closure: Closure = filled(0);
    fill_both(t.boxes, t.rows, scratch, &mut closure)?;
    write_list(t, &closure, mode, out, work)
}
