// A block of a file, and what its bytes say.
ghost use Rattle.std.specs.Prelude.{◌≡◌, ◌+◌, ◌*◌, ◌<◌, ◌≤◌};
ghost use Rattle.blocks.specs.Blocks.{number16, head_of};
ghost use Rattle.blocks.specs.Files.{block_at, block_count};

use super::{BLOCK_SIZE, Head};

// A block: so many bytes of a file.
#[derive(Clone, Copy)]
pub struct Block<'a> {
    pub bytes: &'a [u8; BLOCK_SIZE],
}

impl<'a> Block<'a> {
    // The block at a place of a file.
    pub fn at(file: &'a [u8], place: usize) -> Block<'a>
        requires { place < block_count file.now }
        ensures { result.bytes.now ≡ block_at file.now place }
    {
        let from = BLOCK_SIZE * place;
        let bytes = &file[from..from + BLOCK_SIZE];
        Block {
            bytes: bytes.try_into().unwrap(),
        }
    }

    // The 16-bit number that begins at a byte.
    pub(crate) fn number(self, at: usize) -> u16
        requires { at + 1 < 512 }
        ensures { result ≡ number16 self.entry.bytes.now at }
    {
        u16::from_le_bytes([self.bytes[at], self.bytes[at + 1]])
    }

    // What the first 8 bytes say.
    pub fn head(self) -> Head
        ensures { result ≡ head_of self.entry.bytes.now }
    {
        Head {
            kind: self.bytes[0],
            byte1: self.bytes[1],
            number: self.number(2),
            count: self.number(4),
            byte6: self.bytes[6],
            byte7: self.bytes[7],
        }
    }
}
