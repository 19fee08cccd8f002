// The parts of a block written into a file: its head, its records, by a walk over the rows of their kind, its filler and its check.
#![tactic(auto)]

mod put;
mod records;

ghost use Rattle.std.specs.Prelude.{◌≡◌, ℕ, ◌+◌, ◌^◌, ◌<◌};
ghost use Rattle.block_parts.specs.Walks.{walk_at};

pub use put::{put_check, put_head, put_zeros};
pub use records::{Written, put_records};

// A walk over the rows of a kind: a row, its block counted from the kind's first one, and its place in the block.
#[derive(Clone, Copy)]
pub struct Walk {
    pub row: usize,
    pub block: usize,
    pub place: usize,
}

impl Walk {
    // At the first row.
    pub fn start() -> Self
        ensures { (capacity : ℕ) → result ≡ walk_at capacity 0 }
    {
        Self {
            row: 0,
            block: 0,
            place: 0,
        }
    }

    // At the next row: the next place, or the first place of the next block.
    fn next(self, capacity: usize) -> Self
        requires { (0 < capacity) × (self.row < 2 ^ 32) × (self ≡ walk_at capacity self.row) }
        ensures { result ≡ walk_at capacity (self.row + 1) }
    {
        let row = self.row + 1;
        let place = self.place + 1;
        if place == capacity {
            return Self {
                row,
                block: self.block + 1,
                place: 0,
            };
        }
        Self {
            row,
            block: self.block,
            place,
        }
    }
}
