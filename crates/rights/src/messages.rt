// What is said on standard error. Where it can't be written there, nothing else is done.
use std::io::{Cursor, Error, Write};

// What failed, and why.
#[derive(Drop)]
pub struct Failure<'a> {
    pub what: &'a [u8],
    pub why: Error,
}

// A line: what failed, and why in the system's words, without the number that `Display` adds.
pub fn fail<E: Write>(err: &mut E, failure: Failure) {
    let Failure { what, why } = failure;
    let _ = err.write_all(b"rights: ");
    let _ = err.write_all(what);
    let _ = err.write_all(b": ");
    print_reason(err, why);
    let _ = err.write_all(b"\n");
}

fn print_reason<E: Write>(err: &mut E, why: Error) {
    let mut room = Cursor::new([0u8; 320]);
    let _ = write!(room, "{why}");
    let end = room.position() as usize;
    let said = room.into_inner();
    let text = said
        .get(..end)
        .and_then(|bytes| std::str::from_utf8(bytes).ok())
        .unwrap_or("");
    let reason = text
        .split_once(" (os error ")
        .map_or(text, |(reason, _)| reason);
    let _ = err.write_all(reason.as_bytes());
}

pub fn usage<E: Write>(err: &mut E) {
    let _ = err.write_all(b"usage: rights [FILE]\n");
    let _ = err.write_all(
        b"Lists the rights of the picture in a block file: FILE, or standard input.\n",
    );
    let _ = err.write_all(
        b"A listing is whole if its last line is accepted, ambiguous .. or refused ..\n",
    );
}
