// How the answers of the calls are written to the output.
use case_text::put_field;
use meaning::Entry;
use std::io::Write;

pub fn show_passed<W: Write>(out: &mut W, done: ()) {
    let _ = write!(out, "passed");
}

pub fn show_entry<W: Write>(out: &mut W, e: Entry) {
    match e {
        Entry::Granted(k) => {
            let _ = write!(out, "granted");
            put_field(out, k.into());
        }
        Entry::Denied(k) => {
            let _ = write!(out, "denied");
            put_field(out, k.into());
        }
        Entry::Default => {
            let _ = write!(out, "default");
        }
        Entry::Unclear(p, n) => {
            let _ = write!(out, "unclear");
            put_field(out, p.into());
            put_field(out, n.into());
        }
    }
}

pub fn show_written<W: Write>(out: &mut W, n: usize) {
    let _ = write!(out, "written");
    put_field(out, n);
}

pub fn show_headings<W: Write>(out: &mut W, written: (usize, usize)) {
    let (users, files) = written;
    let _ = write!(out, "written");
    put_field(out, users);
    put_field(out, files);
}
