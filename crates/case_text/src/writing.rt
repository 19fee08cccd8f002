// How buffers and refusals are written to the output. A write that fails is passed over, and the next is tried.
// Kept: a `write!` for each piece, since one of several pieces ends at the first that fails.
use super::buffers::Place;
use std::io::Write;
use tables::{Numbers, Refusal};

// A number, after a space.
pub fn put_field<W: Write>(out: &mut W, n: usize) {
    let _ = write!(out, " ");
    let _ = write!(out, "{n}");
}

// A buffer: what its places hold, and how many in a row hold it if they are more than one.
pub fn show<W: Write, T: Place>(out: &mut W, s: &[T]) {
    let _ = write!(out, " :");
    for run in s.chunk_by(|a, b| a == b) {
        show_run(out, run);
    }
}

fn show_run<W: Write, T: Place>(out: &mut W, run: &[T]) {
    let Some(first) = run.first() else {
        return;
    };
    put_field(out, (*first).into());
    let count = run.len();
    if 1 < count {
        let _ = write!(out, "*");
        let _ = write!(out, "{count}");
    }
}

// A refusal: its number, and its three numbers.
fn show_refusal<W: Write>(out: &mut W, r: Refusal) {
    let Numbers {
        number,
        first,
        second,
        third,
    } = Numbers::from(r);
    let _ = write!(out, "refused");
    put_field(out, number.into());
    put_field(out, first);
    put_field(out, second);
    put_field(out, third);
}

// What a call answers, written by `show_answer`, or its refusal.
pub fn show_reply<W: Write, T, F: FnOnce(&mut W, T)>(
    out: &mut W,
    reply: Result<T, Refusal>,
    show_answer: F,
)
    requires { F.IsAlwaysCallable show_answer }
{
    match reply {
        Ok(answer) => show_answer(out, answer),
        Err(r) => show_refusal(out, r),
    }
}
