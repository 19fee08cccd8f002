// Reading a file into three lent tables.
ghost use Rattle.std.specs.Prelude.{◌≡◌, ◌+◌, ◌*◌, ◌/◌, ◌%◌, ◌<◌, ◌≤◌, length};
ghost use Rattle.std.proofs.lemmas.List.Edits.{sets};
ghost use Rattle.base.specs.Buffers.{written};
ghost use Rattle.tables.specs.Refusals.{verdict_of, unless_refused};
ghost use Rattle.blocks.specs.Blocks.{head_of, said};
ghost use Rattle.blocks.specs.Files.{block_count, block_at, length_fault, table_of, picture_of};
ghost use Rattle.blocks.specs.Reads.{row_counts, read_fault, answer_of};
ghost use Rattle.blocks.specs.Steps.{blocks_fault, counts_of, counts_with, tables_fault};
ghost use Rattle.block_files.specs.Steps.{BlockFits, Fitting};

use super::rows::put_rows;
use block_reader::head_of;
use blocks::{ArrowRecord, BLOCK_SIZE, Block, BoxRecord, ContainmentRecord, Counts, Head};
use checks::{check_counts, check_room};
use tables::{Refusal, refuse_if};

// A file has at most so many bytes.
const FILE_LIMIT: usize = 32768;

// Refusal 14.
fn check_length(len: usize) -> Result<(), Refusal>
    ensures { result ≡ verdict_of (length_fault len) }
{
    let wrong = (len == 0) | (len % BLOCK_SIZE != 0) | (FILE_LIMIT < len);
    refuse_if(wrong, Refusal::BadLength(len))
}

// For each block in turn 15, 16 and 17; the row counts of a file whose blocks are good.
// Kept: a loop over numbers here and in `write_blocks`, since a refusal names the block's number, and `Block::at` takes it.
fn check_blocks(file: &[u8]) -> Result<Counts, Refusal>
    requires { length file.now ≤ 32768 }
    ensures { result ≡ answer_of (blocks_fault (block_at file.now) (block_count file.now))
        (counts_of file.now) }
{
    let mut counts = Counts::zero();
    let mut before = 0;
    for place in 0..file.len() / BLOCK_SIZE {
        let block = Block::at(file, place);
        let head = head_of(file, place);
        block.check_by(head, before, place)?;
        counts = counts.with(head);
        before = head.kind;
    }
    Ok(counts)
}

// Refusals 2 and 9.
fn check_tables(counts: Counts, boxes: usize, rows: usize, arrows: usize) -> Result<(), Refusal>
    ensures { result ≡ verdict_of (tables_fault counts boxes rows arrows) }
{
    check_counts(counts.boxes, counts.containments, counts.arrows)?;
    check_room(5, boxes, counts.boxes)?;
    check_room(6, rows, 2 * counts.containments)?;
    check_room(7, arrows, 4 * counts.arrows)
}

// Writes what a block says, each table from its row count so far on, and answers the row counts with the block.
// Kept: three tables and no struct of them, since `read` is lent three and promises of each what it holds at the end.
fn put_block(
    block: Block<'_>,
    head: Head,
    at: Counts,
    boxes: &mut [u8],
    rows: &mut [u16],
    arrows: &mut [u16],
) -> Counts
    requires head_is { head ≡ head_of block.bytes.now }
    requires block_fits { BlockFits at (head_of block.bytes.now) (length boxes.old) (length rows.old) (length arrows.old) }
    ensures value { result ≡ counts_with at (head_of block.entry.bytes.now) }
    ensures boxes_after { boxes.new ≡ sets boxes.old at.boxes (said 1 block.entry.bytes.now) }
    ensures rows_after { rows.new ≡ sets rows.old (2 * at.containments) (said 2 block.entry.bytes.now) }
    ensures arrows_after { arrows.new ≡ sets arrows.old (4 * at.arrows) (said 3 block.entry.bytes.now) }
{
    put_rows::<BoxRecord>(block, head, at.boxes, boxes);
    put_rows::<ContainmentRecord>(block, head, at.containments, rows);
    put_rows::<ArrowRecord>(block, head, at.arrows, arrows);
    at.with(head)
}

// Writes the tables of a file whose blocks are good, from row 0 on.
fn write_blocks(file: &[u8], boxes: &mut [u8], rows: &mut [u16], arrows: &mut [u16])
    requires { Fitting file.now (length boxes.old) (length rows.old) (length arrows.old) }
    ensures boxes_after { boxes.new ≡ written (table_of 1 file.now) boxes.old }
    ensures rows_after { rows.new ≡ written (table_of 2 file.now) rows.old }
    ensures arrows_after { arrows.new ≡ written (table_of 3 file.now) arrows.old }
{
    let mut at = Counts::zero();
    for place in 0..file.len() / BLOCK_SIZE {
        let head = head_of(file, place);
        at = put_block(Block::at(file, place), head, at, boxes, rows, arrows);
    }
}

// Reads a block file into three lent tables. One pass over the blocks checks, a second one writes.
pub fn read(
    file: &[u8],
    boxes: &mut [u8],
    rows: &mut [u16],
    arrows: &mut [u16],
) -> Result<Counts, Refusal>
    ensures result_value { let fault = read_fault file.now boxes.old rows.old arrows.old in
        result ≡ answer_of fault (row_counts (picture_of file.now)) }
    ensures boxes_after { let fault = read_fault file.now boxes.old rows.old arrows.old in
        boxes.new ≡ unless_refused fault (picture_of file.now).boxes boxes.old }
    ensures rows_after { let fault = read_fault file.now boxes.old rows.old arrows.old in
        rows.new ≡ unless_refused fault (picture_of file.now).rows rows.old }
    ensures arrows_after { let fault = read_fault file.now boxes.old rows.old arrows.old in
        arrows.new ≡ unless_refused fault (picture_of file.now).arrows arrows.old }
{
    check_length(file.len())?;
    let counts = check_blocks(file)?;
    check_tables(counts, boxes.len(), rows.len(), arrows.len())?;
    write_blocks(file, boxes, rows, arrows);
    Ok(counts)
}
