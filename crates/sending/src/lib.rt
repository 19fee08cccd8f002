// How the listing goes out, a buffer at a time. No contract can speak of what standard output takes. So the one function that writes
// takes and answers the running check of what went out, and this is promised: unless a write failed, it is the check of the listing.
#![tactic(auto)]

ghost use Rattle.std.specs.Prelude.{◌≡◌, IfOk};
ghost use Rattle.tables.specs.Rows.{shown};
ghost use Rattle.blocks.specs.Fnv.{fnv_fold};
ghost use Rattle.lines.specs.Lines.{line_text};
ghost use Rattle.lines.specs.declared.Line.TheVariants.{Stopped};
ghost use Rattle.listing.specs.Listing.{in_numbers, picture_listing};
ghost use Rattle.listing.specs.Steps.{Prepared};
ghost use Rattle.sending.specs.Steps.{SentAll, WroteAll};

use blocks::Check;
use containment::Closure;
use std::io::{Error, Write};
use tables::{Numbers, Refusal, Tables};

// The only place where bytes go to standard output. Answers the check of all bytes that went out, in order.
fn send<W: Write>(to: &mut W, before: Check, bytes: &[u8]) -> Result<Check, Error>
    ensures check { IfOk result (λ check. check.state ≡ fnv_fold before.state bytes.now) }
    ensures bytes { WroteAll (W.contents to.old) (W.contents to.new) bytes.now result }
{
    to.write_all(bytes)?;
    Ok(before.part(bytes))
}

// The line of a refused file or picture.
pub fn send_stopped<W: Write>(to: &mut W, r: Numbers) -> Result<Check, Error>
    ensures check { SentAll (line_text (Stopped r)) result }
    ensures bytes { WroteAll (W.contents to.old) (W.contents to.new) (line_text (Stopped r)) result }
{
    let mut out = io::buffer();
    let n = listing::stopped(r, &mut out);
    send(to, Check::fresh(), &out[..n])
}

// What the last line shows of the first unclear pair.
fn in_numbers(seen: Result<(), Refusal>) -> Result<(), Numbers>
    ensures { result ≡ in_numbers seen }
{
    seen.map_err(Numbers::from)
}

// The listing of a picture: the counts, the pair lines, a buffer of whole rows at a time, and the last line.
pub fn send_picture<W: Write>(
    to: &mut W,
    t: Tables,
    closure: &Closure,
    users: &[u16],
    files: &[u16],
) -> Result<Check, Error>
    requires { Prepared (shown t) closure.now t.arrows.now users.now files.now }
    ensures check { SentAll (picture_listing (shown t.entry)) result }
    ensures bytes { WroteAll (W.contents to.old) (W.contents to.new) (picture_listing (shown t.entry)) result }
{
    // Kept: a buffer with a length beside it, since there is no heap here.
    let mut out = io::large_buffer();
    let first = listing::counts_line(
        t.boxes.len(),
        t.rows.len() / 2,
        t.arrows.len() / 4,
        &mut out,
    );
    let mut check = send(to, Check::fresh(), &out[..first])?;
    let mut place = listing::start(t.arrows);
    let count = listing::row_count(users, place);
    // Kept: no `for`, since each turn moves the place on by as many rows as a buffer takes.
    while place.row < count {
        let chunk = listing::fill(closure, t.arrows, users, files, place, &mut out);
        check = send(to, check, &out[..chunk.bytes])?;
        place = chunk.next;
    }
    let last = listing::last_line(in_numbers(place.seen), &mut out);
    send(to, check, &out[..last])
}
