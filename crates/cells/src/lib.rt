// The cells of one row of the matrix: the byte and the number of each file.
#![tactic(auto)]

ghost use Rattle.std.specs.Prelude.{◌≡◌, ◌+◌, ◌<◌, ◌≤◌, length, get_or};
ghost use Rattle.boxsets.specs.Sets.{Boxes};
ghost use Rattle.cells.specs.Steps.{byte_in, Emitted, Copied};

use user_rows::Row;

// Kept: bytes and numbers beside each other, and the byte a number, since the C interface lends and shows them so.

// A file's byte. Both sets are asked, so that the compiler chooses without a branch: which files are granted is seldom foreseen.
#[tactic(auto, unfolding(crate::specs::Steps::byte_in))]
fn byte_in(row: Row, f: usize) -> u8
    requires { f < 256 }
    ensures { result ≡ byte_in row f }
{
    let mut byte = 0;
    if row.unclear.contains(f) {
        byte = 2;
    }
    if row.granted.contains(f) {
        byte = 1;
    }
    byte
}

// Writes the byte and the number of each file, from place `at` on. `found` has the numbers by box number.
pub fn emit_row(
    files: &[u16],
    row: Row,
    found: &[u16],
    at: usize,
    bytes: &mut [u8],
    numbers: &mut [u16],
)
    requires { Boxes files.now × (256 ≤ length found.now) × (at + length files.now ≤ length bytes.old)
        × (at + length files.now ≤ length numbers.old) }
    ensures bytes_after { Emitted (λ j. byte_in row (get_or files.now j 0)) at (length files.now)
        bytes.old bytes.new }
    ensures numbers_after { Emitted (λ j. get_or found.now (get_or files.now j 0) 0) at (length files.now)
        numbers.old numbers.new }
{
    for (j, &file) in files.iter().enumerate() {
        let f = usize::from(file);
        bytes[at + j] = byte_in(row, f);
        numbers[at + j] = found[f];
    }
}

// Copies so many cells from place `from` on to places behind them. One table at a time, so that the compiler copies many at once.
// Kept: a loop over places, since a library's copy within a slice calls `memmove`, and the C library asks for `memcpy` and `memset` alone.
fn copy_cells<T: Copy>(from: usize, at: usize, count: usize, cells: &mut [T])
    requires { (from + count ≤ at) × (at + count ≤ length cells.old) }
    ensures { Copied from at count cells.old cells.new }
{
    for j in 0..count {
        cells[at + j] = cells[from + j];
    }
}

// Copies the cells of a row, from place `from` on, to the places of a later one.
pub fn copy_row(from: usize, at: usize, count: usize, bytes: &mut [u8], numbers: &mut [u16])
    requires { (from + count ≤ at) × (at + count ≤ length bytes.old) × (at + count ≤ length numbers.old) }
    ensures bytes_after { Emitted (λ j. get_or bytes.old (from + j) 0) at count bytes.old bytes.new }
    ensures numbers_after { Emitted (λ j. get_or numbers.old (from + j) 0) at count numbers.old numbers.new }
{
    copy_cells(from, at, count, bytes);
    copy_cells(from, at, count, numbers);
}
