// The kinds of blocks, and the records that a block of each kind holds.
ghost use Rattle.std.specs.Prelude.{◌≡◌, refl, ◌⊎◌, MatchResult, List, ℕ, ◌<◌, ◌≤◌};
ghost use Rattle.std.proofs.Common.{lit≤};
ghost use Rattle.blocks.specs.Blocks.{by_kind, capacity, record_size};
ghost use Rattle.blocks.specs.Steps.{number_of, box_record, containment_record, arrow_record};

use super::Block;

// A record: its block's kind, its bytes, and how many a block holds at most.
pub trait Record: Copy {
    const KIND: u8;

    const SIZE: usize;

    const CAPACITY: usize;

    ghost KIND: { ℕ };

    ghost SIZE: { ℕ };

    ghost CAPACITY: { ℕ };

    // Record j of a block, by the numbers of its row.
    ghost read: { List ℕ → ℕ → Self };

    // Record j of a block.
    fn at(block: Block<'_>, j: usize) -> Self
        requires { j < CAPACITY }
        ensures { result ≡ read block.entry.bytes.now j };

    ghost kind_is: { (1 ≤ KIND) × (KIND ≤ 3) };

    ghost size_is: { SIZE ≡ record_size KIND };

    ghost capacity_is: { CAPACITY ≡ capacity KIND };
}

// A record of a box block. Kept: its byte is a number, as an arrow's mode and sign are, since a record shows what any block has.
#[derive(Clone, Copy)]
pub struct BoxRecord {
    pub side: u8,
}

impl Record for BoxRecord {
    const KIND: u8 = 1;

    const SIZE: usize = 1;

    const CAPACITY: usize = 500;

    ghost KIND = { 1 };

    ghost SIZE = { 1 };

    ghost CAPACITY = { 500 };

    ghost read = { box_record };

    ghost kind_is = { (lit≤ tt, lit≤ tt) };

    ghost size_is = { unfold record_size by_kind in refl };

    ghost capacity_is = { unfold capacity by_kind in refl };

    fn at(block: Block<'_>, j: usize) -> Self {
        Self {
            side: block.bytes[8 + j],
        }
    }
}

// A record of a containment block.
#[derive(Clone, Copy)]
pub struct ContainmentRecord {
    pub outer: u16,
    pub inner: u16,
}

impl Record for ContainmentRecord {
    const KIND: u8 = 2;

    const SIZE: usize = 4;

    const CAPACITY: usize = 125;

    ghost KIND = { 2 };

    ghost SIZE = { 4 };

    ghost CAPACITY = { 125 };

    ghost read = { containment_record };

    ghost kind_is = { (lit≤ tt, lit≤ tt) };

    ghost size_is = { unfold record_size by_kind in refl };

    ghost capacity_is = { unfold capacity by_kind in refl };

    fn at(block: Block<'_>, j: usize) -> Self {
        let from = 8 + Self::SIZE * j;
        Self {
            outer: block.number(from),
            inner: block.number(from + 2),
        }
    }
}

// A record of an arrow block.
#[derive(Clone, Copy)]
pub struct ArrowRecord {
    pub tail: u16,
    pub head: u16,
    pub mode: u8,
    pub sign: u8,
}

impl Record for ArrowRecord {
    const KIND: u8 = 3;

    const SIZE: usize = 6;

    const CAPACITY: usize = 83;

    ghost KIND = { 3 };

    ghost SIZE = { 6 };

    ghost CAPACITY = { 83 };

    ghost read = { arrow_record };

    ghost kind_is = { (lit≤ tt, lit≤ tt) };

    ghost size_is = { unfold record_size by_kind in refl };

    ghost capacity_is = { unfold capacity by_kind in refl };

    fn at(block: Block<'_>, j: usize) -> Self {
        let from = 8 + Self::SIZE * j;
        Self {
            tail: block.number(from),
            head: block.number(from + 2),
            mode: block.bytes[from + 4],
            sign: block.bytes[from + 5],
        }
    }
}

// The kinds of blocks.
#[derive(Clone, Copy)]
pub(crate) enum Kind {
    Boxes,
    Containments,
    Arrows,
}

// A number of no kind.
#[derive(Clone, Copy)]
pub(crate) struct NoKind;

impl TryFrom<u8> for Kind {
    type Error = NoKind;

    ghost try_from_gives = { λ number r. MatchResult r (λ kind. number_of kind ≡ number) (λ _. (number < 1) ⊎ (3 < number)) };

    fn try_from(number: u8) -> Result<Self, NoKind> {
        match number {
            BoxRecord::KIND => Ok(Kind::Boxes),
            ContainmentRecord::KIND => Ok(Kind::Containments),
            ArrowRecord::KIND => Ok(Kind::Arrows),
            _ => Err(NoKind),
        }
    }
}

impl Kind {
    // The bytes of a record.
    pub(crate) fn size(self) -> usize
        ensures { result ≡ record_size (number_of self) }
    {
        match self {
            Kind::Boxes => BoxRecord::SIZE,
            Kind::Containments => ContainmentRecord::SIZE,
            Kind::Arrows => ArrowRecord::SIZE,
        }
    }

    // How many records a block holds at most.
    pub(crate) fn capacity(self) -> usize
        ensures { result ≡ capacity (number_of self) }
    {
        match self {
            Kind::Boxes => BoxRecord::CAPACITY,
            Kind::Containments => ContainmentRecord::CAPACITY,
            Kind::Arrows => ArrowRecord::CAPACITY,
        }
    }
}
