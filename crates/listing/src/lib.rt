// The program's listing as bytes (document 01, "The program's listing"): which lines there are, and how they are written into a
// buffer that the caller lends.
#![tactic(auto)]

mod row;

ghost use Rattle.std.specs.Prelude.{◌≡◌, ◌+◌, ◌*◌, ◌<◌, ◌≤◌, length};
ghost use Rattle.base.specs.Buffers.{written};
ghost use Rattle.std.specs.Result.{result_and};
ghost use Rattle.tables.specs.Rows.{Picture};
ghost use Rattle.lines.specs.Lines.{line_text};
ghost use Rattle.listing.specs.Listing.{used};
ghost use Rattle.listing.specs.PairRows.{used_modes};
ghost use Rattle.lines.specs.Steps.{Holds};
ghost use Rattle.listing.specs.Steps.{InRange, Fits, Prepared, Stands, Filled};

use containment::Closure;
use lines::{Line, Pen, put_line};
use row::put_row;
use tables::{Arrow, Numbers, Refusal};

// ---- The lines that are no pair lines, each alone at the start of the buffer: its length.

fn put_alone(l: Line, out: &mut [u8]) -> usize
    requires { 111 ≤ length out.old }
    ensures { Holds (line_text l) out.old out.new result }
{
    put_line(out, 0, l)
}

// The first line, by the counts of rows.
pub fn counts_line(boxes: usize, rows: usize, arrows: usize, out: &mut [u8]) -> usize
    requires { 111 ≤ length out.old }
    ensures { Holds (line_text (Line.Counts boxes rows arrows)) out.old out.new result }
{
    put_alone(Line::Counts(boxes, rows, arrows), out)
}

// The last line, by the first unclear pair.
pub fn last_line(seen: Result<(), Numbers>, out: &mut [u8]) -> usize
    requires { 111 ≤ length out.old }
    ensures { Holds (line_text (Line.Last seen)) out.old out.new result }
{
    put_alone(Line::Last(seen), out)
}

// The line of a refused file or picture.
pub fn stopped(r: Numbers, out: &mut [u8]) -> usize
    requires { 111 ≤ length out.old }
    ensures { Holds (line_text (Line.Stopped r)) out.old out.new result }
{
    put_alone(Line::Stopped(r), out)
}

// ---- The pair lines, row by row: a row is the lines of one mode and one user.

// A place among the rows: the modes with an arrow, rising, and how many; the next row; and the first unclear pair of the rows before it,
// so that no pair is answered again for the last line. Kept: the modes with their number beside them, since there is no heap here and a
// place is copied.
#[derive(Clone, Copy)]
pub struct Place {
    pub modes: [u16; 8],
    pub used: usize,
    pub row: usize,
    pub seen: Result<(), Refusal>,
}

impl Place {
    // The place after a row, by the row's first unclear pair.
    fn after(self, unclear: Result<(), Refusal>) -> Self
        requires { self.row < 65536 }
        ensures { result ≡ record {
          modes = self.modes;
          used = self.used;
          row = self.row + 1;
          seen = result_and self.seen unclear;
        } }
    {
        Self {
            row: self.row + 1,
            seen: self.seen.and(unclear),
            ..self
        }
    }
}

// Whether the mode has an arrow.
fn is_used(arrows: &[u16], mode: u16) -> bool
    ensures { result ≡ used arrows.now mode }
{
    (0..arrows.len() / 4).any(|k| Arrow::at(arrows, k).mode == mode)
}

// Writes the modes with an arrow, rising, and answers how many. Kept: a place that is counted, since the modes go into fixed memory.
fn used_modes(arrows: &[u16], out: &mut [u16]) -> usize
    requires { 8 ≤ length out.old }
    ensures value { result ≡ length (used_modes arrows.now) }
    ensures out_after { out.new ≡ written (used_modes arrows.now) out.old }
{
    let mut count = 0;
    for m in 0..8 {
        if is_used(arrows, m) {
            out[count] = m;
            count += 1;
        }
    }
    count
}

// The first row.
pub fn start(arrows: &[u16]) -> Place
    ensures row_value { result.row ≡ 0 }
    ensures stands { (pic : Picture) → arrows.now ≡ pic.arrows → Stands pic result }
{
    let mut modes = [0u16; 8];
    let used = used_modes(arrows, &mut modes);
    Place {
        modes,
        used,
        row: 0,
        seen: Ok(()),
    }
}

// How many rows there are.
pub fn row_count(users: &[u16], place: Place) -> usize
    requires { (length users.now ≤ 256) × (place.used ≤ 8) }
    ensures { result ≡ place.used * length users.now }
{
    place.used * users.len()
}

// So many bytes are whole rows, and the place after them.
#[derive(Clone, Copy)]
pub struct Chunk {
    pub bytes: usize,
    pub next: Place,
}

// Puts as many whole rows as are sure to fit at the start of the buffer, from a place on.
pub fn fill(
    closure: &Closure,
    arrows: &[u16],
    users: &[u16],
    files: &[u16],
    from: Place,
    out: &mut [u8],
) -> Chunk
    requires in_range { InRange arrows.now users.now files.now × Fits users.now from }
    requires files_in_bounds { length files.now * 111 ≤ length out.old }
    ensures { (pic : Picture)
        → Prepared pic closure.now arrows.now users.now files.now
        → Stands pic from → Filled pic from out.old out.new result }
{
    let count = row_count(users, from);
    let most = out.len() - files.len() * Line::MOST;
    let mut pen = Pen { out, at: 0 };
    let mut place = from;
    // Kept: a `for` would count the rows beside the place, which counts them for the caller.
    while place.row < count && pen.at <= most {
        let mode = place.modes[place.row / users.len()];
        let user = users[place.row % users.len()];
        let unclear = put_row(closure, arrows, mode, user, files, &mut pen);
        place = place.after(unclear);
    }
    Chunk {
        bytes: pen.at,
        next: place,
    }
}
