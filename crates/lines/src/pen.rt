// A pen on a lent buffer: each method puts its bytes where the pen is and moves it behind them. First the parts of a line.
// Kept: no `Display`, since `write!` promises the bytes only where it answers `Ok`, and `put_line` puts them on every line.
ghost use Rattle.std.specs.Prelude.{◌≡◌, [], ◌∷◌, ◌++◌, ◌+◌, ◌≤◌, length};
ghost use Rattle.lines.specs.Text.{text, decimal, line};
ghost use Rattle.lines.specs.Lines.{answer_fields, three_fields};
ghost use Rattle.lines.specs.Steps.{Moved};

use meaning::Entry;
use tables::Numbers;

// The lent buffer, and the place where the next byte goes.
#[derive(Drop)]
pub struct Pen<'a> {
    pub out: &'a mut [u8],
    pub at: usize,
}

impl Pen<'_> {
    pub(crate) fn text(&mut self, bytes: &[u8])
        requires { self.old.at + length bytes.now ≤ length self.old.out.now }
        ensures same_buffer { self.new.out.ghost_name ≡ self.old.out.ghost_name }
        ensures put { Moved self.old bytes.now (length bytes.now) self.new }
    {
        let end = self.at + bytes.len();
        self.out[self.at..end].copy_from_slice(bytes);
        self.at = end;
    }

    pub(crate) fn number(&mut self, n: usize)
        requires { self.old.at + 20 ≤ length self.old.out.now }
        ensures same_buffer { self.new.out.ghost_name ≡ self.old.out.ghost_name }
        ensures put { Moved self.old (decimal n) 20 self.new }
    {
        let mut digits = [0u8; 20];
        let k = io::decimal(n as u64, &mut digits);
        self.text(&digits[..k]);
    }

    // A number after a space.
    pub(crate) fn field(&mut self, n: usize)
        requires { self.old.at + 21 ≤ length self.old.out.now }
        ensures same_buffer { self.new.out.ghost_name ≡ self.old.out.ghost_name }
        ensures put { Moved self.old (text " " ++ decimal n) 21 self.new }
    {
        self.text(b" ");
        self.number(n);
    }

    // The last number of a line, after a space.
    pub(crate) fn end(&mut self, n: usize)
        requires { self.old.at + 22 ≤ length self.old.out.now }
        ensures same_buffer { self.new.out.ghost_name ≡ self.old.out.ghost_name }
        ensures put { Moved self.old (text " " ++ line (decimal n ∷ [])) 22 self.new }
    {
        self.field(n);
        self.text(b"\n");
    }

    // The three numbers of a refusal, which end a line.
    pub(crate) fn three(&mut self, r: Numbers)
        requires { self.old.at + 64 ≤ length self.old.out.now }
        ensures same_buffer { self.new.out.ghost_name ≡ self.old.out.ghost_name }
        ensures put { Moved self.old (text " " ++ line (three_fields r)) 64 self.new }
    {
        self.field(r.first);
        self.field(r.second);
        self.end(r.third);
    }

    // An answer and its arrow or arrows, which end a line.
    pub(crate) fn answer(&mut self, e: Entry)
        requires { self.old.at + 49 ≤ length self.old.out.now }
        ensures same_buffer { self.new.out.ghost_name ≡ self.old.out.ghost_name }
        ensures put { Moved self.old (text " " ++ line (answer_fields e)) 49 self.new }
    {
        match e {
            Entry::Granted(k) => {
                self.text(b" pos");
                self.end(usize::from(k));
            }
            Entry::Denied(k) => {
                self.text(b" neg");
                self.end(usize::from(k));
            }
            Entry::Default => self.text(b" neg -\n"),
            Entry::Unclear(p, n) => {
                self.text(b" ambig");
                self.field(usize::from(p));
                self.end(usize::from(n));
            }
        }
    }
}
