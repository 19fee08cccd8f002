// Block files: a block, its check, what it says, what is wrong with it, and the row counts of tables.
#![tactic(auto)]

mod block;
mod fnv;
mod records;
mod verify;

ghost use Rattle.std.specs.Prelude.{◌≡◌, ◌+◌, ◌*◌, ◌^◌, ◌<◌};
ghost use Rattle.blocks.specs.Blocks.{wrong_head};
ghost use Rattle.blocks.specs.Steps.{records_end, count_of, counts_with, no_counts};

pub use block::Block;
pub use fnv::Check;
use records::Kind;
pub use records::{ArrowRecord, BoxRecord, ContainmentRecord, Record};

// A block has so many bytes.
pub const BLOCK_SIZE: usize = 512;

// The first 8 bytes of a block. Kept: its kind is a number, since a head shows what any block has (`head_of`), a wrong one too.
#[derive(Clone, Copy)]
pub struct Head {
    pub kind: u8,
    pub byte1: u8,
    pub number: u16,
    pub count: u16,
    pub byte6: u8,
    pub byte7: u8,
}

impl Head {
    // How many records of a kind the block has.
    // Kept: a number and no enum, since it promises `count_of` of any number.
    pub fn count_of(self, kind: u8) -> usize
        ensures { result ≡ count_of kind self }
    {
        if self.kind == kind {
            return usize::from(self.count);
        }
        0
    }

    // The byte after the records.
    fn records_end(self) -> usize
        ensures { result ≡ records_end self }
    {
        match Kind::try_from(self.kind) {
            Ok(kind) => 8 + kind.size() * usize::from(self.count),
            Err(_) => 8,
        }
    }

    // Whether the head is wrong, by the kind of the block before and the block's place in its file.
    fn wrong(self, before: u8, place: usize) -> bool
        ensures { result ≡ wrong_head before place self }
    {
        let Ok(kind) = Kind::try_from(self.kind) else {
            return true;
        };
        (self.kind < before)
            | (self.byte1 != 0)
            | (self.byte6 != 0)
            | (self.byte7 != 0)
            | (usize::from(self.number) != place)
            | (kind.capacity() < usize::from(self.count))
    }
}

// The row counts of three tables.
#[derive(Clone, Copy)]
pub struct Counts {
    pub boxes: usize,
    pub containments: usize,
    pub arrows: usize,
}

impl Counts {
    // Those of tables without rows.
    pub fn zero() -> Self
        ensures { result ≡ no_counts }
    {
        Self {
            boxes: 0,
            containments: 0,
            arrows: 0,
        }
    }

    // Those with the records of one block more.
    pub fn with(self, head: Head) -> Self
        requires { (self.boxes < 2 ^ 32) × (self.containments < 2 ^ 32) × (self.arrows < 2 ^ 32) }
        ensures { result ≡ counts_with self head }
    {
        Self {
            boxes: self.boxes + head.count_of(BoxRecord::KIND),
            containments: self.containments + head.count_of(ContainmentRecord::KIND),
            arrows: self.arrows + head.count_of(ArrowRecord::KIND),
        }
    }
}
