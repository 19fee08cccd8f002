// The cases of a picture's calls, and those of its headings.
use super::replies::{show_entry, show_headings, show_passed, show_written};
use base::filled;
use case_text::{Place, buffer, lent, number, show, show_reply, table};
use containment::Closure;
use std::io::{Read, Write};
use tables::{Refusal, Tables};

// The calls of a picture.
#[derive(Clone, Copy, PartialEq, Eq)]
enum Call {
    Prepare,
    Judge,
    Entry,
    Matrix,
    List,
}

impl From<u8> for Call {
    // The call that a label's letter stands for.
    fn from(letter: u8) -> Self {
        match letter {
            b'p' => Call::Prepare,
            b'j' => Call::Judge,
            b'e' => Call::Entry,
            b'm' => Call::Matrix,
            _ => Call::List,
        }
    }
}

// What a call is asked, and how many places of each buffer it is lent.
#[derive(Clone, Copy)]
struct Question {
    scratch: usize,
    mode: u16,
    user: u16,
    file: u16,
    bytes: usize,
    numbers: usize,
}

fn ask<R: Read>(input: &mut R) -> Question {
    Question {
        scratch: number(input).value,
        mode: u16::low(number(input).value),
        user: u16::low(number(input).value),
        file: u16::low(number(input).value),
        bytes: number(input).value,
        numbers: number(input).value,
    }
}

// Checks 1 to 7, 9 for the scratch and 10.
fn prepare(t: Tables, scratch: &mut [u8]) -> Result<(), Refusal> {
    let mut closure: Closure = filled(0);
    let early = scratch::early_picture(t, scratch);
    scratch::prepare(early, t.boxes, t.rows, scratch, &mut closure)
}

// The answer of a call, with the places that are lent.
fn show_call<W: Write>(
    out: &mut W,
    t: Tables,
    call: Call,
    q: Question,
    scratch: &mut [u8],
    bytes: &mut [u8],
    numbers: &mut [u16],
) {
    match call {
        Call::Prepare => show_reply(out, prepare(t, scratch), show_passed),
        Call::Judge => show_reply(out, answers::judge(t, scratch), show_passed),
        Call::Entry => show_reply(
            out,
            answers::one_entry(t, scratch, q.user, q.file, q.mode),
            show_entry,
        ),
        Call::Matrix => show_reply(
            out,
            answers::matrix(t, scratch, q.mode, bytes, numbers),
            show_passed,
        ),
        Call::List => show_reply(
            out,
            lists::list(t, scratch, q.mode, numbers, bytes),
            show_written,
        ),
    }
}

// The line of a call, on fresh buffers.
fn run<W: Write>(out: &mut W, t: Tables, call: Call, q: Question) {
    let mut scratch = buffer::<u8>();
    let mut bytes = buffer::<u8>();
    let mut numbers = buffer::<u16>();
    let s = lent(&scratch, q.scratch);
    let b = lent(&bytes, q.bytes);
    let n = lent(&numbers, q.numbers);
    show_call(
        out,
        t,
        call,
        q,
        &mut scratch[..s],
        &mut bytes[..b],
        &mut numbers[..n],
    );
    show(out, &scratch);
    show(out, &bytes);
    show(out, &numbers);
    let _ = writeln!(out);
}

pub fn picture_case<R: Read, W: Write>(input: &mut R, out: &mut W, letter: u8) {
    let mut boxes = buffer::<u8>();
    let mut rows = buffer::<u16>();
    let mut arrows = buffer::<u16>();
    let b = table(input, &mut boxes);
    let r = table(input, &mut rows);
    let a = table(input, &mut arrows);
    let q = ask(input);
    let t = Tables {
        boxes: &boxes[..b],
        rows: &rows[..r],
        arrows: &arrows[..a],
    };
    let call = Call::from(letter);
    run(out, t, call, q);
    if call == Call::Prepare {
        run(out, t, Call::Judge, q);
        run(out, t, Call::Entry, q);
        run(out, t, Call::Matrix, q);
    }
}

// Writes the headings into as many places of both buffers as the input says.
fn show_atoms<R: Read, W: Write>(
    input: &mut R,
    out: &mut W,
    boxes: &[u8],
    rows: &[u16],
    users: &mut [u16],
    files: &mut [u16],
) {
    let m = lent(users, number(input).value);
    let n = lent(files, number(input).value);
    show_reply(
        out,
        headings::atomic_boxes(boxes, rows, &mut users[..m], &mut files[..n]),
        show_headings,
    );
    show(out, users);
    show(out, files);
    let _ = writeln!(out);
}

pub fn heading_case<R: Read, W: Write>(input: &mut R, out: &mut W) {
    let mut boxes = buffer::<u8>();
    let mut rows = buffer::<u16>();
    let mut users = buffer::<u16>();
    let mut files = buffer::<u16>();
    let b = table(input, &mut boxes);
    let r = table(input, &mut rows);
    show_atoms(input, out, &boxes[..b], &rows[..r], &mut users, &mut files);
}
