// Which boxes of a picture are atomic, and how many pairs they make.
#![tactic(auto)]

ghost use Rattle.std.specs.Prelude.{◌≡◌, not, ◌&&◌, [], ℕ, ◌*◌, ◌/◌, ◌%◌, ◌<◌, ◌≤◌, length, get_or};
ghost use Rattle.base.specs.Search.{select};
ghost use Rattle.base.specs.Buffers.{written};
ghost use Rattle.tables.specs.Atoms.{outer, atom, atoms, pair_count};
ghost use Rattle.tables.specs.Steps.{SoundRows};
ghost use Rattle.tables.specs.Rows.{is_group, on_side, row_at, row_count};
ghost use Rattle.atoms.specs.Steps.{Marks, unmarked};

use base::filled;
use tables::{BoxRow, Containment, is_group, on_side};

// Whether box b is the outer one of a row. Costs a step a row.
fn is_outer(rows: &[u16], b: usize) -> bool
    requires { length rows.now % 2 ≡ 0 }
    ensures { result ≡ outer rows.now b }
{
    let mut found = false;
    for k in (0..rows.len() / 2).rev() {
        if usize::from(Containment::at(rows, k).outer) == b {
            found = true;
        }
    }
    found
}

// Whether b is a box of the side and neither a user group nor a folder.
// Kept: a number for the side, here and below, since `is_atom` and `atoms_of` promise `atom` and `atoms` of any number.
fn is_single(boxes: &[u8], side: u8, b: usize) -> bool
    ensures { result ≡ (on_side boxes.now side b && not (is_group (get_or boxes.now b 0))) }
{
    on_side(boxes, side, b) && !is_group(boxes[b])
}

// Whether b is an atomic box of the side.
pub fn is_atom(boxes: &[u8], rows: &[u16], side: u8, b: usize) -> bool
    requires { length rows.now % 2 ≡ 0 }
    ensures { result ≡ atom boxes.now rows.now side b }
{
    is_single(boxes, side, b) && !is_outer(rows, b)
}

// Marks the outer box of each row by a 1.
fn mark_outer(rows: &[u16], marks: &mut [u8])
    requires rows_len { length rows.now % 2 ≡ 0 }
    requires by_index { (k : ℕ) → k < row_count rows.now → (row_at rows.now k).outer < length marks.old }
    requires marks { Marks (outer []) marks.old }
    ensures { Marks (outer rows.now) marks.new }
{
    for k in (0..rows.len() / 2).rev() {
        let b = usize::from(Containment::at(rows, k).outer);
        marks[b] = 1;
    }
}

// Whether b is a box of the side and no group, and its mark is 0.
fn is_unmarked(boxes: &[u8], side: u8, marks: &[u8], b: usize) -> bool
    requires { b < length marks.now }
    ensures { result ≡ unmarked boxes.now side marks.now b }
{
    is_single(boxes, side, b) && marks[b] == 0
}

// Writes these boxes, by rising number, and answers how many. Kept: a loop over numbers, since a box's number is what is written.
fn gather(boxes: &[u8], side: u8, marks: &[u8], out: &mut [u16]) -> usize
    requires { (length boxes.now ≤ 256) × (256 ≤ length marks.now) × (256 ≤ length out.old) }
    ensures value { result ≡ length (select (unmarked boxes.now side marks.now) (length boxes.now)) }
    ensures out_after { out.new
        ≡ written (select (unmarked boxes.now side marks.now) (length boxes.now))
        out.old }
{
    let mut count = 0;
    for b in 0..boxes.len() {
        if is_unmarked(boxes, side, marks, b) {
            out[count] = b as u16;
            count += 1;
        }
    }
    count
}

// Writes the atomic boxes of a side, by rising number, and answers how many. Costs a step a row and a step a box.
pub fn atoms_of(boxes: &[u8], rows: &[u16], side: u8, out: &mut [u16]) -> usize
    requires { SoundRows boxes.now rows.now × (256 ≤ length out.old) }
    ensures value { result ≡ length (atoms boxes.now rows.now side) }
    ensures out_after { out.new ≡ written (atoms boxes.now rows.now side) out.old }
{
    let mut marks: [u8; BoxRow::LIMIT] = filled(0);
    mark_outer(rows, &mut marks);
    gather(boxes, side, &marks, out)
}

// How many pairs of an atomic user and an atomic file there are.
pub fn pair_count(boxes: &[u8], rows: &[u16]) -> usize
    requires { SoundRows boxes.now rows.now }
    ensures { result ≡ pair_count boxes.now rows.now }
{
    let mut atoms: [u16; BoxRow::LIMIT] = filled(0);
    let users = atoms_of(boxes, rows, BoxRow::USER, &mut atoms);
    let files = atoms_of(boxes, rows, BoxRow::FILE, &mut atoms);
    users * files
}
