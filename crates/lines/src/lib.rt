// A line of the listing (document 01, "The program's listing"), as a value and as bytes.
#![tactic(auto)]

mod pen;

ghost use Rattle.std.specs.Prelude.{◌≡◌, ◌+◌, ◌≤◌, length};
ghost use Rattle.lines.specs.Lines.{line_text};
ghost use Rattle.lines.specs.Steps.{Put, Moved};

use meaning::Entry;
pub use pen::Pen;
use tables::Numbers;

// A line of the listing.
#[derive(Clone, Copy)]
pub enum Line {
    // The row counts of the boxes, the containments and the arrows.
    Counts(usize, usize, usize),
    // The mode, user, file and answer of a pair.
    Pair(u16, u16, u16, Entry),
    // The last line: clear, or the first unclear pair.
    Last(Result<(), Numbers>),
    // The only line of a refused file or picture. It shows any four numbers.
    Stopped(Numbers),
}

impl Line {
    // No line has more bytes: three numbers, " ambig" and two numbers more, with spaces, and the line's end.
    pub const MOST: usize = 111;
}

impl Pen<'_> {
    fn counts(&mut self, boxes: usize, rows: usize, arrows: usize)
        requires { self.old.at + 89 ≤ length self.old.out.now }
        ensures same_buffer { self.new.out.ghost_name ≡ self.old.out.ghost_name }
        ensures put { Moved self.old (line_text (Line.Counts boxes rows arrows)) 89 self.new }
    {
        self.text(b"boxes");
        self.field(boxes);
        self.text(b" containments");
        self.field(rows);
        self.text(b" arrows");
        self.end(arrows);
    }

    fn pair(&mut self, mode: u16, user: u16, file: u16, e: Entry)
        requires { self.old.at + 111 ≤ length self.old.out.now }
        ensures same_buffer { self.new.out.ghost_name ≡ self.old.out.ghost_name }
        ensures put { Moved self.old (line_text (Line.Pair mode user file e)) 111 self.new }
    {
        self.number(usize::from(mode));
        self.field(usize::from(user));
        self.field(usize::from(file));
        self.answer(e);
    }

    fn last(&mut self, seen: Result<(), Numbers>)
        requires { self.old.at + 73 ≤ length self.old.out.now }
        ensures same_buffer { self.new.out.ghost_name ≡ self.old.out.ghost_name }
        ensures put { Moved self.old (line_text (Line.Last seen)) 73 self.new }
    {
        match seen {
            Ok(()) => self.text(b"accepted\n"),
            Err(r) => {
                self.text(b"ambiguous");
                self.three(r);
            }
        }
    }

    fn stopped(&mut self, r: Numbers)
        requires { self.old.at + 92 ≤ length self.old.out.now }
        ensures same_buffer { self.new.out.ghost_name ≡ self.old.out.ghost_name }
        ensures put { Moved self.old (line_text (Line.Stopped r)) 92 self.new }
    {
        self.text(b"refused");
        self.field(usize::from(r.number));
        self.three(r);
    }

    // Any line: of at most `Line::MOST` bytes.
    pub fn line(&mut self, l: Line)
        requires { self.old.at + 111 ≤ length self.old.out.now }
        ensures same_buffer { self.new.out.ghost_name ≡ self.old.out.ghost_name }
        ensures put { Moved self.old (line_text l) 111 self.new }
    {
        match l {
            Line::Counts(boxes, rows, arrows) => self.counts(boxes, rows, arrows),
            Line::Pair(mode, user, file, e) => self.pair(mode, user, file, e),
            Line::Last(seen) => self.last(seen),
            Line::Stopped(r) => self.stopped(r),
        }
    }
}

// Puts a line at a place and answers the place behind it.
pub fn put_line(out: &mut [u8], at: usize, l: Line) -> usize
    requires { at + 111 ≤ length out.old }
    ensures { Put out.old at (line_text l) 111 out.new result }
{
    let mut pen = Pen { out, at };
    pen.line(l);
    pen.at
}
