// The three lent tables of a picture: their rows, the side of a box, and the one type of refusal.
#![tactic(auto)]

mod sides;

ghost use Rattle.std.specs.Prelude.{◌≡◌, ◌+◌, ◌*◌, ◌<◌};
ghost use Rattle.base.specs.Search.{given};
ghost use Rattle.tables.specs.Rows.{row_at, row_count, arrow_at, arrow_count};
ghost use Rattle.tables.specs.Refusals.{numbers, numbers_of, verdict_of};

pub use sides::{is_group, on_side, side_of};

// The three lent tables of a picture: boxes, containments, arrows.
#[derive(Clone, Copy)]
pub struct Tables<'a> {
    pub boxes: &'a [u8],
    pub rows: &'a [u16],
    pub arrows: &'a [u16],
}

// A row of the boxes: its byte.
#[derive(Clone, Copy)]
pub struct BoxRow {
    pub byte: u8,
}

impl BoxRow {
    // A picture has at most so many boxes.
    pub const LIMIT: usize = 256;

    // The two sides, and the bytes of boxes that may be atomic.
    // Kept: numbers and no enum, since the lent table has them, and `on_side` and `atoms_of` answer for every number of a side.
    pub const USER: u8 = 0;

    pub const FILE: u8 = 1;

    // A user group, on the user side.
    pub const GROUP: u8 = 2;

    // A folder, on the file side.
    pub const FOLDER: u8 = 3;
}

// A row of the containments.
#[derive(Clone, Copy)]
pub struct Containment {
    pub outer: u16,
    pub inner: u16,
}

impl Containment {
    // A picture has at most so many containments.
    pub const LIMIT: usize = 1024;

    // Row k.
    pub fn at(rows: &[u16], k: usize) -> Self
        requires { k < row_count rows.now }
        ensures { result ≡ row_at rows.now k }
    {
        Self {
            outer: rows[2 * k],
            inner: rows[2 * k + 1],
        }
    }
}

// A row of the arrows. Kept: its mode and sign are numbers, since the lent table may have any (check 7 refuses those).
#[derive(Clone, Copy)]
pub struct Arrow {
    pub tail: u16,
    pub head: u16,
    pub mode: u16,
    pub sign: u16,
}

impl Arrow {
    // A picture has at most so many arrows.
    pub const LIMIT: usize = 512;

    // The number of no arrow. Kept: a number and no Option, since the matrix has it across the C interface.
    pub const NONE: u16 = 65535;

    // Arrow k.
    pub fn at(arrows: &[u16], k: usize) -> Self
        requires { k < arrow_count arrows.now }
        ensures { result ≡ arrow_at arrows.now k }
    {
        Self {
            tail: arrows[4 * k],
            head: arrows[4 * k + 1],
            mode: arrows[4 * k + 2],
            sign: arrows[4 * k + 3],
        }
    }
}

// Why a picture, a question, a buffer or a file is refused (documents 01 and 02).
#[derive(Clone, Copy, Debug, PartialEq, Eq)]
pub enum Refusal {
    // A table (0 boxes, 1 containments, 2 arrows) whose length is no whole number of rows: table, length.
    Ragged(usize, usize),
    // A table with too many rows: table, count.
    TooMany(usize, usize),
    // A box byte above 3: box.
    BadByte(usize),
    // A containment naming a box that isn't there: row.
    NoBox(usize),
    // A containment across sides: row.
    AcrossSides(usize),
    // An arrow whose tail is no user box or head no file box: row.
    WrongEnds(usize),
    // An arrow whose mode is above 7 or sign above 1: row.
    WrongMode(usize),
    // An asked mode above 7: the mode.
    NoMode(usize),
    // A buffer that is too short: buffer, length needed.
    TooShort(usize, usize),
    // A box that contains itself: box.
    InItself(usize),
    // An asked user or file that is no atomic box of that side: user, file.
    NotAtomic(usize, usize),
    // A mode has an unclear pair: mode, user, file.
    UnclearPair(usize, usize, usize),
    // No list of a mode reaches a granted pair: mode, user, file.
    NoOrder(usize, usize, usize),
    // A file of a wrong length: the length.
    BadLength(usize),
    // A block whose check is wrong: block.
    BadCheck(usize),
    // A block whose head is wrong: block.
    BadHead(usize),
    // A block whose filler is not zero: block.
    BadFiller(usize),
}

// A refusal as the C interface and the listing show it: its number and three numbers, 0 where nothing is named.
#[derive(Clone, Copy)]
pub struct Numbers {
    pub number: u8,
    pub first: usize,
    pub second: usize,
    pub third: usize,
}

impl Numbers {
    // The number and three numbers.
    fn of(number: u8, first: usize, second: usize, third: usize) -> Self
        ensures { result ≡ numbers number first second third }
    {
        Self {
            number,
            first,
            second,
            third,
        }
    }
}

impl From<Refusal> for Numbers {
    ghost from_gives = { λ r n. n ≡ numbers_of r };

    fn from(r: Refusal) -> Self {
        match r {
            Refusal::Ragged(table, len) => Self::of(1, table, len, 0),
            Refusal::TooMany(table, count) => Self::of(2, table, count, 0),
            Refusal::BadByte(at) => Self::of(3, at, 0, 0),
            Refusal::NoBox(row) => Self::of(4, row, 0, 0),
            Refusal::AcrossSides(row) => Self::of(5, row, 0, 0),
            Refusal::WrongEnds(row) => Self::of(6, row, 0, 0),
            Refusal::WrongMode(row) => Self::of(7, row, 0, 0),
            Refusal::NoMode(mode) => Self::of(8, mode, 0, 0),
            Refusal::TooShort(buffer, need) => Self::of(9, buffer, need, 0),
            Refusal::InItself(at) => Self::of(10, at, 0, 0),
            Refusal::NotAtomic(user, file) => Self::of(11, user, file, 0),
            Refusal::UnclearPair(mode, user, file) => Self::of(12, mode, user, file),
            Refusal::NoOrder(mode, user, file) => Self::of(13, mode, user, file),
            Refusal::BadLength(len) => Self::of(14, len, 0, 0),
            Refusal::BadCheck(block) => Self::of(15, block, 0, 0),
            Refusal::BadHead(block) => Self::of(16, block, 0, 0),
            Refusal::BadFiller(block) => Self::of(17, block, 0, 0),
        }
    }
}

// Refuses where there is a fault.
pub fn refuse_if(fault: bool, refusal: Refusal) -> Result<(), Refusal>
    ensures { result ≡ verdict_of (given fault refusal) }
{
    if fault { Err(refusal) } else { Ok(()) }
}
