// The matrix of a mode, row by row.
#![tactic(auto)]

ghost use Rattle.std.specs.Prelude.{◌≡◌, ◌*◌, ◌≤◌, length};
ghost use Rattle.base.specs.Buffers.{written};
ghost use Rattle.tables.specs.Rows.{Picture, user, file};
ghost use Rattle.tables.specs.Rows.{shown};
ghost use Rattle.tables.specs.Atoms.{atoms, pair_count};
ghost use Rattle.boxsets.specs.Sets.{Boxes};
ghost use Rattle.meaning.specs.Pairs.{matrix_bytes, matrix_numbers};
ghost use Rattle.mode_sets.specs.Steps.{Small};
ghost use Rattle.certificates.specs.Steps.{Drawn};

use atoms::atoms_of;
use base::filled;
use boxsets::Set;
use cells::{copy_row, emit_row};
use containment::Closure;
use mode_sets::{Heads, take_mode};
use tables::{Arrow, BoxRow, Tables};
use user_kinds::{Notes, alike};
use user_rows::answer_row;

// Writes the matrix of a mode for the atomic users and files. The row of a user who is answered as one before is that one's.
// Kept: an array and a count, here and below, since there is no heap (fixed memory).
fn fill_matrix(
    closure: &Closure,
    arrows: &[u16],
    mode: u16,
    users: &[u16],
    files: &[u16],
    bytes: &mut [u8],
    numbers: &mut [u16],
)
    requires { Small arrows.now × Boxes users.now × Boxes files.now
        × (length users.now * length files.now ≤ length bytes.old)
        × (length users.now * length files.now ≤ length numbers.old) }
    ensures { (pic : Picture) → Drawn pic closure.now → arrows.now ≡ pic.arrows
        → users.now ≡ atoms pic.boxes pic.rows user → files.now ≡ atoms pic.boxes pic.rows file
        → (bytes.new ≡ written (matrix_bytes pic mode) bytes.old)
        × (numbers.new ≡ written (matrix_numbers pic mode) numbers.old) }
{
    let mut own: [u16; Arrow::LIMIT] = filled(0);
    let mut heads: Heads = filled(0);
    let count = take_mode(arrows, mode, &mut own, &mut heads);
    let own = &own[..count];
    let asked = Set::of(files);
    let mut notes: Notes = filled(0);
    for (i, &user) in users.iter().enumerate() {
        let at = i * files.len();
        let j = alike(closure, &heads, users, i, &mut notes);
        if j < i {
            copy_row(j * files.len(), at, files.len(), bytes, numbers);
        } else {
            let u = usize::from(user);
            let mut found: [u16; BoxRow::LIMIT] = filled(Arrow::NONE);
            let row = answer_row(closure, &heads, arrows, own, u, asked, &mut found);
            emit_row(files, row, &found, at, bytes, numbers);
        }
    }
}

// Writes the matrix of a mode of a picture, by its closure.
pub fn fill_picture(t: Tables, closure: &Closure, mode: u16, bytes: &mut [u8], numbers: &mut [u16])
    requires { let pic = shown t in
        Drawn pic closure.now
        × (pair_count pic.boxes pic.rows ≤ length bytes.old) × (pair_count pic.boxes pic.rows ≤ length numbers.old) }
    ensures { let pic = shown t.entry in
        (bytes.new ≡ written (matrix_bytes pic mode) bytes.old)
        × (numbers.new ≡ written (matrix_numbers pic mode) numbers.old) }
{
    let mut users: [u16; BoxRow::LIMIT] = filled(0);
    let mut files: [u16; BoxRow::LIMIT] = filled(0);
    let user_count = atoms_of(t.boxes, t.rows, BoxRow::USER, &mut users);
    let file_count = atoms_of(t.boxes, t.rows, BoxRow::FILE, &mut files);
    fill_matrix(
        closure,
        t.arrows,
        mode,
        &users[..user_count],
        &files[..file_count],
        bytes,
        numbers,
    );
}
