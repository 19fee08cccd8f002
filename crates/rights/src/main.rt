// Reads one block file, from standard input or by its name, and writes its listing (document 01, "The program's listing"). Which
// bytes these are is promised by `listing`; here they only come in and go out. A failure of reading or writing gives a line on
// standard error: a failed read gives no listing, and after a failed write nothing more goes out.
#![tactic(auto)]

mod messages;

ghost use Rattle.std.specs.Prelude.{◌≡◌, ◌*◌, ◌≤◌, length, take, IfOk};
ghost use Rattle.base.specs.Buffers.{zeros};
ghost use Rattle.tables.specs.Rows.{picture};
ghost use Rattle.tables.specs.Rows.{shown};
ghost use Rattle.certificates.specs.Steps.{Drawn};
ghost use Rattle.listing.specs.Files.{listing_of, file_listing};
ghost use Rattle.listing.specs.Listing.{picture_listing};
ghost use Rattle.sending.specs.Steps.{SentAll, WroteAll};

use base::filled;
use blocks::{Check, Counts};
use containment::Closure;
use messages::{Failure, fail, usage};
use sending::{send_picture, send_stopped};
use std::env::{Env, FillError};
use std::fs;
use std::fs::Files;
use std::io::{Error, Read, Write};
use tables::{BoxRow, Numbers, Tables};

// ---- Input.

// Reads until the buffer is full, the input ends or a read fails, and answers how many bytes came.
// Kept: a loop over `read`, since no method of `Read` fills a buffer as far as the input goes (`read_exact` fails at its end).
fn read_all<R: Read>(from: &mut R, file: &mut [u8]) -> Result<usize, Error>
    ensures { IfOk result (λ n. n ≤ length file.new) }
{
    let mut at = 0;
    while at < file.len() {
        let n = from.read(&mut file[at..])?;
        if n == 0 {
            break;
        }
        at += n;
    }
    Ok(at)
}

// ---- The listing goes out: unless a write failed, what went out has the check of the listing, and a writer whose bytes a contract can
// speak of has just the listing more.

// Of a picture without faults.
fn list_picture<W: Write>(to: &mut W, t: Tables, closure: &Closure) -> Result<Check, Error>
    requires { Drawn (shown t) closure.now }
    ensures check { SentAll (picture_listing (shown t.entry)) result }
    ensures bytes { WroteAll (W.contents to.old) (W.contents to.new) (picture_listing (shown t.entry)) result }
{
    // Kept, as in what follows: arrays with counts beside them, since there is no heap here.
    let mut users: [u16; BoxRow::LIMIT] = filled(0);
    let mut files: [u16; BoxRow::LIMIT] = filled(0);
    let user_count = atoms::atoms_of(t.boxes, t.rows, BoxRow::USER, &mut users);
    let file_count = atoms::atoms_of(t.boxes, t.rows, BoxRow::FILE, &mut files);
    send_picture(to, t, closure, &users[..user_count], &files[..file_count])
}

// Of any picture.
fn list_tables<W: Write>(to: &mut W, t: Tables) -> Result<Check, Error>
    ensures check { SentAll (listing_of (shown t.entry) (zeros 65536)) result }
    ensures bytes { let pic = shown t.entry in
        WroteAll (W.contents to.old) (W.contents to.new) (listing_of pic (zeros 65536)) result }
{
    let mut scratch = io::large_buffer();
    let mut closure: Closure = filled(0);
    let early = scratch::early_picture(t, &scratch);
    match scratch::prepare(early, t.boxes, t.rows, &mut scratch, &mut closure) {
        Ok(()) => list_picture(to, t, &closure),
        Err(r) => send_stopped(to, Numbers::from(r)),
    }
}

// Of tables that were read, by their row counts.
fn list_counted<W: Write>(to: &mut W, t: Tables, c: Counts) -> Result<Check, Error>
    requires { (c.boxes ≤ length t.boxes.now) × (2 * c.containments ≤ length t.rows.now)
        × (4 * c.arrows ≤ length t.arrows.now) }
    ensures check { let pic = picture (take c.boxes t.entry.boxes.now)
        (take (2 * c.containments) t.entry.rows.now) (take (4 * c.arrows) t.entry.arrows.now) in
        SentAll (listing_of pic (zeros 65536)) result }
    ensures bytes { let pic = picture (take c.boxes t.entry.boxes.now)
        (take (2 * c.containments) t.entry.rows.now) (take (4 * c.arrows) t.entry.arrows.now) in
        WroteAll (W.contents to.old) (W.contents to.new) (listing_of pic (zeros 65536)) result }
{
    let cut = Tables {
        boxes: &t.boxes[..c.boxes],
        rows: &t.rows[..2 * c.containments],
        arrows: &t.arrows[..4 * c.arrows],
    };
    list_tables(to, cut)
}

// Of a file that was read.
fn list<W: Write>(to: &mut W, file: &[u8]) -> Result<Check, Error>
    ensures check { SentAll (file_listing file.now) result }
    ensures bytes { WroteAll (W.contents to.old) (W.contents to.new) (file_listing file.now) result }
{
    let mut boxes: [u8; BoxRow::LIMIT] = filled(0);
    let mut rows: [u16; 2048] = filled(0);
    let mut arrows: [u16; 2048] = filled(0);
    match block_files::read(file, &mut boxes, &mut rows, &mut arrows) {
        Ok(counts) => {
            let t = Tables {
                boxes: &boxes,
                rows: &rows,
                arrows: &arrows,
            };
            list_counted(to, t, counts)
        }
        Err(r) => send_stopped(to, Numbers::from(r)),
    }
}

// ---- Which file is read. What fails goes up to `main`, which says it.

fn list_from<'a, R: Read + Drop, W: Write + Drop>(
    mut from: R,
    mut to: W,
) -> Result<(), Failure<'a>> {
    // A byte more than the longest file has.
    let mut file: [u8; 32769] = filled(0);
    let n = read_all(&mut from, &mut file).map_err(|why| Failure {
        what: b"cannot read the file",
        why,
    })?;
    list(&mut to, &file[..n]).map_err(|why| Failure {
        what: b"cannot write the listing",
        why,
    })?;
    Ok(())
}

// A name that is not UTF-8 is the name of no file that std can open.
fn list_named<'a, F: Files, W: Write + Drop>(
    files: &F,
    name: &'a [u8],
    to: W,
) -> Result<(), Failure<'a>> {
    let path = std::str::from_utf8(name).map_err(|_| Failure {
        what: name,
        why: Error::from_raw_os_error(NO_SUCH_FILE),
    })?;
    let file = fs::open(files, path).map_err(|why| Failure { what: name, why })?;
    list_from(file, to)
}

// Linux's numbers of two errors.
const NO_SUCH_FILE: i32 = 2;

const NAME_TOO_LONG: i32 = 36;

fn main(rt: HostRuntime) {
    let mut err = rt.stderr();
    if !matches!(rt.arg(2, &mut []), Err(FillError::NotPresent)) {
        usage(&mut err);
        return;
    }
    let mut name = io::buffer();
    let listed = match rt.arg(1, &mut name) {
        Err(FillError::NotPresent) => list_from(rt.stdin(), rt.stdout()),
        Err(FillError::TooLong) => Err(Failure {
            what: b"argument",
            why: Error::from_raw_os_error(NAME_TOO_LONG),
        }),
        Ok(n) => {
            let name = &name[..n];
            if name == b"--help".as_slice() {
                usage(&mut err);
                Ok(())
            } else {
                list_named(&rt, name, rt.stdout())
            }
        }
    };
    if let Err(failure) = listed {
        fail(&mut err, failure);
    }
}
