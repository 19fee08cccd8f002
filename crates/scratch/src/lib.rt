// The bytes that the caller lends, n × n of them for n boxes: which box contains which, and which of it is drawn; and the stage that
// fills them.
#![tactic(auto)]

mod filling;

ghost use Rattle.std.specs.Prelude.{◌≡◌, ◌*◌, ◌≤◌, length, Ok, Err, IsErrAnd};
ghost use Rattle.std.specs.Prelude.{MatchOption, None as none};
ghost use Rattle.base.specs.Buffers.{zeros};
ghost use Rattle.tables.specs.Refusals.{verdict_of};
ghost use Rattle.tables.specs.Rows.{shown};
ghost use Rattle.tables.specs.Steps.{SoundRows};
ghost use Rattle.containment.specs.Contains.{loop_fault};
ghost use Rattle.containment.specs.Steps.{Closure, closure_words};
ghost use Rattle.scratch.specs.Scratch.{scratch_fault, scratch_after, early_fault};
ghost use Rattle.scratch.specs.Steps.{filled};

use checks::check_room;
use containment::{Closure, add_selves, check_loops, close, mark_rows};
use filling::fill_scratch;
use tables::{Refusal, Tables};

// Fills the closure and the scratch, and makes check 10. Each box is added to its own sets only after the check, which looks
// for a box there.
pub fn fill_both(
    boxes: &[u8],
    rows: &[u16],
    scratch: &mut [u8],
    closure: &mut Closure,
) -> Result<(), Refusal>
    requires sound_rows { SoundRows boxes.now rows.now }
    requires boxes_in_bounds { length boxes.now * length boxes.now ≤ length scratch.old }
    requires closure_value { closure.old ≡ zeros closure_words }
    ensures value { result ≡ verdict_of (loop_fault boxes.now rows.now) }
    ensures scratch_after { scratch.new ≡ filled (length boxes.now) rows.now scratch.old }
    ensures closure { Closure (length boxes.now) rows.now closure.new }
{
    let n = boxes.len();
    mark_rows(rows, closure);
    close(closure, n);
    let loops = check_loops(closure, n);
    fill_scratch(rows, n, closure, scratch);
    add_selves(closure, n);
    loops
}

// Check 9 for the scratch of so many boxes as passed check 2.
pub fn check_scratch(boxes: &[u8], scratch: &[u8]) -> Result<(), Refusal>
    requires { length boxes.now ≤ 256 }
    ensures { result ≡ verdict_of (scratch_fault (length boxes.now) scratch.now) }
{
    let n = boxes.len();
    check_room(0, scratch.len(), n * n)
}

// What comes before the stage below where a call has no other checks: checks 1 to 7 of a picture, 9 for the scratch.
pub fn early_picture(t: Tables, scratch: &[u8]) -> Result<(), Refusal>
    ensures { result ≡ verdict_of (early_fault (shown t.entry) scratch.now) }
{
    checks::check(t)?;
    check_scratch(t.boxes, scratch)
}

// The stage after early checks that are a value, with any error that a refusal turns into: unless one refused, the closure and the
// scratch, and check 10.
pub fn prepare<E: From<Refusal>>(
    early: Result<(), E>,
    boxes: &[u8],
    rows: &[u16],
    scratch: &mut [u8],
    closure: &mut Closure,
) -> Result<(), E>
    requires sound_rows { early ≡ Ok tt
        → SoundRows boxes.now rows.now × (length boxes.now * length boxes.now ≤ length scratch.old) }
    requires closure_value { closure.old ≡ zeros closure_words }
    ensures refused { (e : E) → early ≡ Err e → (result ≡ Err e) × (scratch.new ≡ scratch.old) }
    ensures value { early ≡ Ok tt
        → MatchOption (loop_fault boxes.now rows.now) (result ≡ Ok tt) (λ r. IsErrAnd result (E.from_gives r))
        × (scratch.new ≡ scratch_after none boxes.now rows.now scratch.old) }
    ensures closure { result ≡ Ok tt → Closure (length boxes.now) rows.now closure.new }
{
    early?;
    fill_both(boxes, rows, scratch, closure)?;
    Ok(())
}
