// The checks of each call that come before the scratch is filled.
ghost use Rattle.std.specs.Prelude.{◌≡◌};
ghost use Rattle.tables.specs.Rows.{shown};
ghost use Rattle.tables.specs.Refusals.{verdict_of};
ghost use Rattle.scratch.specs.Scratch.{mode_early};
ghost use Rattle.answers.specs.Calls.{matrix_early};

use atoms::pair_count;
use checks::{check_mode, check_room};
use scratch::check_scratch;
use tables::{Refusal, Tables};

// Of one entry: 1 to 9.
pub fn early_entry(t: Tables, scratch: &[u8], mode: u16) -> Result<(), Refusal>
    ensures { result ≡ verdict_of (mode_early (shown t.entry)
        scratch.now mode) }
{
    checks::check(t)?;
    check_mode(mode)?;
    check_scratch(t.boxes, scratch)
}

// Of the matrix: 1 to 9, with a place for each pair in both buffers.
pub fn early_matrix(
    t: Tables,
    scratch: &[u8],
    mode: u16,
    bytes: &[u8],
    numbers: &[u16],
) -> Result<(), Refusal>
    ensures { result ≡ verdict_of (matrix_early (shown t.entry)
        scratch.now mode bytes.now numbers.now) }
{
    early_entry(t, scratch, mode)?;
    let pairs = pair_count(t.boxes, t.rows);
    check_room(1, bytes.len(), pairs)?;
    check_room(2, numbers.len(), pairs)
}
