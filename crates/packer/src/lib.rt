// Packs a picture into a block file: blocks of each kind full but the last, none empty but the one of a picture without boxes.
#![tactic(auto)]

ghost use Rattle.std.specs.Prelude.{◌≡◌, ◌+◌, ◌*◌, ◌^◌, ◌<◌, length};
ghost use Rattle.std.proofs.lemmas.List.Edits.{sets};
ghost use Rattle.tables.specs.Rows.{shown};
ghost use Rattle.blocks.specs.Blocks.{joined};
ghost use Rattle.packing.specs.Packed.{block_of, blocks_for};
ghost use Rattle.packing.specs.Packs.{pack_answer, file_after};
ghost use Rattle.block_parts.specs.Walks.{walk_at};
ghost use Rattle.packer.specs.Kinds.{kind_of, block_in, Begins, BlocksFit};

use block_parts::{Walk, Written, put_check, put_head, put_records, put_zeros};
use blocks::{ArrowRecord, BLOCK_SIZE, BoxRecord, ContainmentRecord, Record};
use checks::{check, check_room};
use tables::{Refusal, Tables};

// How many blocks so many rows fill: each takes the rows that are left, or is full. A loop that only adds capacities up is made a division
// by the compiler.
// Kept: no `div_ceil`, since packing divides by no capacity (document 02, P5).
fn blocks_for(rows: usize, capacity: usize) -> usize
    requires { (0 < capacity) × (capacity < 2 ^ 32) × (rows < 2 ^ 32) }
    ensures { result ≡ blocks_for capacity rows }
{
    let mut blocks = 0;
    let mut row = 0;
    while row < rows {
        row += (rows - row).min(capacity);
        blocks += 1;
    }
    blocks
}

// Writes the block at which the walk stands, with so many records, and answers the walk behind them.
fn put_block<R: Written>(
    table: &[R::Cell],
    first: usize,
    walk: Walk,
    count: usize,
    file: &mut [u8],
) -> Walk
    requires { Begins (kind_of R.KIND R.SIZE R.CAPACITY (R.rows table.now) first (R.bytes table.now)) (length file.old) walk count }
    ensures value { result ≡ walk_at R.CAPACITY (walk.row + count) }
    ensures file_after { file.new ≡ sets file.old (512 * (first + walk.block))
        (block_of R.KIND (first + walk.block) count (λ j. R.bytes table.now (walk.row + j))) }
{
    let number = first + walk.block;
    let at = BLOCK_SIZE * number;
    put_head(R::KIND, number as u16, count as u16, at, file);
    let next = put_records::<R>(table, walk, count, at + 8, file);
    let used = R::SIZE * count;
    put_zeros(500 - used, at + 8 + used, file);
    put_check(at, file);
    next
}

// Writes the blocks of a kind, of which there are so many.
fn put_kind<R: Written>(table: &[R::Cell], first: usize, blocks: usize, file: &mut [u8])
    requires { BlocksFit (kind_of R.KIND R.SIZE R.CAPACITY (R.rows table.now) first (R.bytes table.now)) blocks (length file.old) }
    ensures { file.new ≡ sets file.old (512 * first)
        (joined (block_in (kind_of R.KIND R.SIZE R.CAPACITY (R.rows table.now) first (R.bytes table.now))) blocks) }
{
    let mut walk = Walk::start();
    for _ in 0..blocks {
        let count = (R::rows(table) - walk.row).min(R::CAPACITY);
        walk = put_block::<R>(table, first, walk, count, file);
    }
}

// Packs a picture into a lent file. Checks 1 to 7, then 9 with buffer 8, before a byte is written. A picture's boxes, at most 256,
// fill one block.
pub fn pack(t: Tables, file: &mut [u8]) -> Result<usize, Refusal>
    ensures result_value { let pic = shown t.entry in
        result ≡ pack_answer pic file.old }
    ensures file_after { let pic = shown t.entry in
        file.new ≡ file_after pic file.old }
{
    check(t)?;
    let second = blocks_for(ContainmentRecord::rows(t.rows), ContainmentRecord::CAPACITY);
    let third = blocks_for(ArrowRecord::rows(t.arrows), ArrowRecord::CAPACITY);
    let need = BLOCK_SIZE * (1 + second + third);
    check_room(8, file.len(), need)?;
    put_kind::<BoxRecord>(t.boxes, 0, 1, file);
    put_kind::<ContainmentRecord>(t.rows, 1, second, file);
    put_kind::<ArrowRecord>(t.arrows, 1 + second, third, file);
    Ok(need)
}
