// How the records of a block are written, from its first place on: one loop for all kinds, which walks over the rows.
ghost use Rattle.std.specs.Prelude.{◌≡◌, List, ℕ, ◌+◌, ◌<◌, ◌≤◌, length};
ghost use Rattle.std.proofs.lemmas.List.Edits.{sets};
ghost use Rattle.tables.specs.Rows.{row_count, arrow_count};
ghost use Rattle.blocks.specs.Blocks.{joined};
ghost use Rattle.packing.specs.Packed.{box_bytes, containment_bytes, arrow_bytes};
ghost use Rattle.packing.proofs.Lengths.{box-length, containment-length, arrow-length};
ghost use Rattle.block_parts.specs.Walks.{walk_at, Run};

use super::Walk;
use super::put::put;
use blocks::{ArrowRecord, BoxRecord, ContainmentRecord, Record};
use tables::{Arrow, Containment};

// A record that is written from a row of a table.
pub trait Written: Record {
    // What the table holds a number in.
    type Cell;

    ghost rows: { List Self.Cell → ℕ };

    // A row as a record.
    ghost bytes: { List Self.Cell → ℕ → List ℕ };

    // How many rows the table has.
    fn rows(table: &[Self::Cell]) -> usize
        ensures { result ≡ rows table.now };

    // Writes the record of a row, from a byte of the file on.
    fn put(table: &[Self::Cell], row: usize, at: usize, file: &mut [u8])
        requires { (row < rows table.now) × (at + Self.SIZE ≤ length file.old) }
        ensures { file.new ≡ sets file.old at (bytes table.now row) };

    ghost bytes_length: { (table : List Self.Cell) (row : ℕ) → length (bytes table row) ≡ Self.SIZE };
}

impl Written for BoxRecord {
    type Cell = u8;

    ghost rows = { length };

    ghost bytes = { box_bytes };

    ghost bytes_length = { box-length };

    fn rows(boxes: &[u8]) -> usize {
        boxes.len()
    }

    fn put(boxes: &[u8], row: usize, at: usize, file: &mut [u8]) {
        file[at] = boxes[row];
    }
}

impl Written for ContainmentRecord {
    type Cell = u16;

    ghost rows = { row_count };

    ghost bytes = { containment_bytes };

    ghost bytes_length = { containment-length };

    fn rows(rows: &[u16]) -> usize {
        rows.len() / 2
    }

    fn put(rows: &[u16], row: usize, at: usize, file: &mut [u8]) {
        let r = Containment::at(rows, row);
        put(&r.outer.to_le_bytes(), at, file);
        put(&r.inner.to_le_bytes(), at + 2, file);
    }
}

impl Written for ArrowRecord {
    type Cell = u16;

    ghost rows = { arrow_count };

    ghost bytes = { arrow_bytes };

    ghost bytes_length = { arrow-length };

    fn rows(arrows: &[u16]) -> usize {
        arrows.len() / 4
    }

    fn put(arrows: &[u16], row: usize, at: usize, file: &mut [u8]) {
        let a = Arrow::at(arrows, row);
        let mode = a.mode.to_le_bytes();
        let sign = a.sign.to_le_bytes();
        put(&a.tail.to_le_bytes(), at, file);
        put(&a.head.to_le_bytes(), at + 2, file);
        put(&[mode[0], sign[0]], at + 4, file);
    }
}

// Writes the records of a block, and answers the walk behind them.
pub fn put_records<R: Written>(
    table: &[R::Cell],
    walk: Walk,
    count: usize,
    at: usize,
    file: &mut [u8],
) -> Walk
    requires { Run R.SIZE R.CAPACITY (R.rows table.now) walk count at (length file.old) }
    ensures value { result ≡ walk_at R.CAPACITY (walk.row + count) }
    ensures file_after { file.new ≡ sets file.old at (joined (λ j. R.bytes table.now (walk.row + j)) count) }
{
    let mut w = walk;
    for _ in 0..count {
        R::put(table, w.row, at + R::SIZE * w.place, file);
        w = w.next(R::CAPACITY);
    }
    w
}
