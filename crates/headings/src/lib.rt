// The headings of the matrix: the atomic users, which are its rows, and the atomic files, which are its columns.
#![tactic(auto)]

ghost use Rattle.std.specs.Prelude.{◌≡◌, ◌≤◌, length, take};
ghost use Rattle.base.specs.Buffers.{written};
ghost use Rattle.headings.specs.Calls.{headings_of, heading_fault, users_after, files_after};

use atoms::atoms_of;
use base::filled;
use checks::check_room;
use tables::{BoxRow, Refusal, Tables};

// Writes the first n numbers into the first places.
// Kept: an array and a count, since there is no heap (fixed memory).
fn copy(numbers: &[u16], n: usize, out: &mut [u16])
    requires { (n ≤ length numbers.now) × (n ≤ length out.old) }
    ensures { out.new ≡ written (take n numbers.now) out.old }
{
    out[..n].copy_from_slice(&numbers[..n]);
}

// Writes the atomic users and the atomic files, each by rising number, and answers how many. Checks 1 to 7 as on a picture without
// arrows, then 9, for both buffers before a place is written.
pub fn atomic_boxes(
    boxes: &[u8],
    rows: &[u16],
    users: &mut [u16],
    files: &mut [u16],
) -> Result<(usize, usize), Refusal>
    ensures value { result ≡ headings_of boxes.now rows.now
        (heading_fault boxes.now rows.now users.old files.old) }
    ensures users_after { users.new
        ≡ users_after boxes.now rows.now users.old files.old }
    ensures files_after { files.new
        ≡ files_after boxes.now rows.now users.old files.old }
{
    checks::check(Tables {
        boxes,
        rows,
        arrows: &rows[..0],
    })?;
    let mut atomic_users: [u16; BoxRow::LIMIT] = filled(0);
    let mut atomic_files: [u16; BoxRow::LIMIT] = filled(0);
    let m = atoms_of(boxes, rows, BoxRow::USER, &mut atomic_users);
    let n = atoms_of(boxes, rows, BoxRow::FILE, &mut atomic_files);
    check_room(11, users.len(), m)?;
    check_room(12, files.len(), n)?;
    copy(&atomic_users, m, users);
    copy(&atomic_files, n, files);
    Ok((m, n))
}
