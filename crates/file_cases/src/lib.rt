// The cases of block files for the test program: read, packed, and their check.
#![tactic(auto)]

use blocks::{Check, Counts, Head};
use case_text::{buffer, lent, number, put_field, show, show_reply, table};
use std::io::{Read, Write};
use tables::Tables;

fn show_counts<W: Write>(out: &mut W, counts: Counts) {
    let _ = write!(out, "counts");
    put_field(out, counts.boxes);
    put_field(out, counts.containments);
    put_field(out, counts.arrows);
}

// Reads a file into as many places of each table as the input says.
fn show_file<R: Read, W: Write>(
    input: &mut R,
    out: &mut W,
    file: &[u8],
    boxes: &mut [u8],
    rows: &mut [u16],
    arrows: &mut [u16],
) {
    let b = lent(boxes, number(input).value);
    let r = lent(rows, number(input).value);
    let a = lent(arrows, number(input).value);
    show_reply(
        out,
        block_files::read(file, &mut boxes[..b], &mut rows[..r], &mut arrows[..a]),
        show_counts,
    );
    show(out, boxes);
    show(out, rows);
    show(out, arrows);
    let _ = writeln!(out);
}

// The head of the block that a reader sees, if any.
fn show_seen<W: Write>(out: &mut W, seen: Option<Head>) {
    let Some(head) = seen else {
        let _ = write!(out, "none");
        return;
    };
    let _ = write!(out, "block");
    put_field(out, head.kind.into());
    put_field(out, head.byte1.into());
    put_field(out, head.number.into());
    put_field(out, head.count.into());
    put_field(out, head.byte6.into());
    put_field(out, head.byte7.into());
}

fn show_moves<W: Write>(out: &mut W, file: &[u8]) {
    let count = file.len() / 512;
    show_seen(out, block_reader::head_after(file, 0));
    let _ = write!(out, " : ");
    show_seen(out, block_reader::head_after(file, count.saturating_sub(1)));
    let _ = write!(out, " : ");
    show_seen(out, block_reader::head_after(file, count));
    let _ = writeln!(out);
}

pub fn file_case<R: Read, W: Write>(input: &mut R, out: &mut W) {
    let mut file = buffer::<u8>();
    let mut boxes = buffer::<u8>();
    let mut rows = buffer::<u16>();
    let mut arrows = buffer::<u16>();
    let n = table(input, &mut file);
    show_file(input, out, &file[..n], &mut boxes, &mut rows, &mut arrows);
    show_moves(out, &file[..n]);
}

// Packs a picture into as many places of the file as the input says.
fn show_blocks<R: Read, W: Write>(input: &mut R, out: &mut W, t: Tables, file: &mut [u8]) {
    let n = lent(file, number(input).value);
    show_reply(out, packer::pack(t, &mut file[..n]), show_packed);
    show(out, file);
    let _ = writeln!(out);
}

fn show_packed<W: Write>(out: &mut W, n: usize) {
    let _ = write!(out, "packed");
    put_field(out, n);
}

pub fn pack_case<R: Read, W: Write>(input: &mut R, out: &mut W) {
    let mut boxes = buffer::<u8>();
    let mut rows = buffer::<u16>();
    let mut arrows = buffer::<u16>();
    let mut file = buffer::<u8>();
    let b = table(input, &mut boxes);
    let r = table(input, &mut rows);
    let a = table(input, &mut arrows);
    let t = Tables {
        boxes: &boxes[..b],
        rows: &rows[..r],
        arrows: &arrows[..a],
    };
    show_blocks(input, out, t, &mut file);
}

pub fn check_case<R: Read, W: Write>(input: &mut R, out: &mut W) {
    let mut bytes = buffer::<u8>();
    let n = table(input, &mut bytes);
    let check = Check::fresh().part(&bytes[..n]);
    let _ = write!(out, "{:08x}", check.state);
    let _ = writeln!(out);
}
