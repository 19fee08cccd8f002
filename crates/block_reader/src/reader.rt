// A reader of blocks: the caller's bytes together with a place.
ghost use Rattle.std.specs.Prelude.{◌≡◌, ◌/◌, ◌<◌};
ghost use Rattle.blocks.specs.Blocks.{head_of};
ghost use Rattle.blocks.specs.Files.{block_at, block_count};
ghost use Rattle.block_reader.specs.Reader.{seen_at, next_block};

use blocks::{BLOCK_SIZE, Block, Head};

// The caller's bytes together with a place among them, a block number.
// Kept: no Iterator, whose `next` would answer a head; what `BlockReader::next` promises is the next place (`next_block`).
#[derive(Clone, Copy)]
pub struct BlockReader<'a> {
    pub file: &'a [u8],
    pub block: usize,
}

impl<'a> BlockReader<'a> {
    // The reader of a file at a block number.
    pub fn at(file: &'a [u8], block: usize) -> BlockReader<'a>
        ensures { (result.file ≡ file.entry) × (result.block ≡ block) }
    {
        BlockReader { file, block }
    }

    // The head of the reader's block, if there is one.
    pub fn seen(self) -> Option<Head>
        ensures { result ≡ seen_at self.entry.file.now self.entry.block }
    {
        if self.block < self.file.len() / BLOCK_SIZE {
            return Some(Block::at(self.file, self.block).head());
        }
        None
    }

    // The reader of the next block; behind the last block it stays.
    pub fn next(self) -> BlockReader<'a>
        ensures { (result.file ≡ self.entry.file) × (result.block ≡ next_block self.entry.file.now self.entry.block) }
    {
        if self.block < self.file.len() / BLOCK_SIZE {
            return BlockReader {
                file: self.file,
                block: self.block + 1,
            };
        }
        self
    }
}

// What the reader at a block number sees.
// Kept: plain parameters here and below, since their callers hold no reader.
pub fn head_at(file: &[u8], block: usize) -> Option<Head>
    ensures { result ≡ seen_at file.now block }
{
    BlockReader::at(file, block).seen()
}

// What it sees once it has moved to the next block.
pub fn head_after(file: &[u8], block: usize) -> Option<Head>
    ensures { result ≡ seen_at file.now (next_block file.now block) }
{
    BlockReader::at(file, block).next().seen()
}

// The head of a block, as the block's reader sees it.
pub fn head_of(file: &[u8], block: usize) -> Head
    requires { block < block_count file.now }
    ensures { result ≡ head_of (block_at file.now block) }
{
    head_at(file, block).unwrap()
}
