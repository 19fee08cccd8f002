// How the rows that a block says are written into the table of its kind.
ghost use Rattle.std.specs.Prelude.{◌≡◌, List, ℕ, ◌+◌, ◌*◌, ◌<◌, ◌≤◌, length};
ghost use Rattle.std.proofs.Common.{lit<};
ghost use Rattle.std.proofs.lemmas.List.Edits.{sets};
ghost use Rattle.blocks.specs.Blocks.{head_of, row_of, said};
ghost use Rattle.blocks.specs.Steps.{count_of};
ghost use Rattle.blocks.proofs.RowLaws.{row-lengths};

use blocks::{ArrowRecord, Block, BoxRecord, ContainmentRecord, Head, Record};

// A record that says a row of a table: so many numbers.
pub(crate) trait Row: Record {
    // What the table holds a number in.
    type Cell;

    const WIDTH: usize;

    ghost WIDTH: { ℕ };

    ghost numbers: { List Self.Cell → List ℕ };

    // Writes the row of record j of a block, from a number of the table on.
    fn put(block: Block<'_>, j: usize, at: usize, table: &mut [Self::Cell])
        requires { (j < Self.CAPACITY) × (at + WIDTH ≤ length table.old) }
        ensures { numbers table.new ≡ sets (numbers table.old) at (row_of Self.KIND block.entry.bytes.now j) };

    ghost width_some: { 0 < WIDTH };

    ghost row_length: { (block : List ℕ) (j : ℕ) → length (row_of Self.KIND block j) ≡ WIDTH };
}

impl Row for BoxRecord {
    type Cell = u8;

    const WIDTH: usize = 1;

    ghost WIDTH = { 1 };

    ghost numbers = { λ l. l };

    ghost width_some = { lit< tt };

    ghost row_length = { λ block j. (row-lengths block j).0 };

    fn put(block: Block<'_>, j: usize, at: usize, boxes: &mut [u8]) {
        boxes[at] = Self::at(block, j).side;
    }
}

impl Row for ContainmentRecord {
    type Cell = u16;

    const WIDTH: usize = 2;

    ghost WIDTH = { 2 };

    ghost numbers = { λ l. l };

    ghost width_some = { lit< tt };

    ghost row_length = { λ block j. (row-lengths block j).1 };

    fn put(block: Block<'_>, j: usize, at: usize, rows: &mut [u16]) {
        let record = Self::at(block, j);
        rows[at] = record.outer;
        rows[at + 1] = record.inner;
    }
}

impl Row for ArrowRecord {
    type Cell = u16;

    const WIDTH: usize = 4;

    ghost WIDTH = { 4 };

    ghost numbers = { λ l. l };

    ghost width_some = { lit< tt };

    ghost row_length = { λ block j. (row-lengths block j).2 };

    fn put(block: Block<'_>, j: usize, at: usize, arrows: &mut [u16]) {
        let record = Self::at(block, j);
        arrows[at] = record.tail;
        arrows[at + 1] = record.head;
        arrows[at + 2] = u16::from(record.mode);
        arrows[at + 3] = u16::from(record.sign);
    }
}

// Writes what a block says of the table of a kind, by its head, from row `at` on.
pub(crate) fn put_rows<R: Row>(block: Block<'_>, head: Head, at: usize, table: &mut [R::Cell])
    requires head_is { head ≡ head_of block.bytes.now }
    requires rows_fit { let count = count_of R.KIND (head_of block.bytes.now) in
        (count ≤ R.CAPACITY) × (R.WIDTH * (at + count) ≤ length table.old) }
    ensures { R.numbers table.new ≡ sets (R.numbers table.old) (R.WIDTH * at) (said R.KIND block.entry.bytes.now) }
{
    for j in 0..head.count_of(R::KIND) {
        R::put(block, j, R::WIDTH * (at + j), table);
    }
}
