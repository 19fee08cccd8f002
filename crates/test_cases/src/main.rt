// Runs the calls on the cases of standard input; tests/test_cases.py makes them, and what must be written for them.
// A case is a label of 25 bytes and then numbers, each with one byte after it. A table is how many places it has and what they
// hold, where V*N stands for N places that hold V. The label's first letter says what the case is:
//   p   a picture: its three tables, how many places of the scratch are lent, a mode, a user and a file, and how many places of
//       the bytes and of the numbers are lent; for prepare, judge, one_entry and matrix
//   l   the same for list, whose list is the numbers and whose work is the bytes
//   h   the headings of a picture: its boxes and containments, and how many places of the users and of the files are lent; for
//       atomic_boxes
//   f   a block file, and how many places of the three tables are lent; for read, and for a block reader that moves on from
//       the first block, from the last block and from behind it
//   b   a picture to be packed into blocks: its three tables, and how many places of the file are lent; for pack
//   c   bytes, for their check
// Every buffer has 65,600 places, which hold 170 or 43690 before each call. What is written is the label and a line for each call:
// what it answers, and then what every place of every buffer holds, as in a table.
#![tactic(auto)]

mod pictures;
mod replies;

use file_cases::{check_case, file_case, pack_case};
use pictures::{heading_case, picture_case};
use std::io::{Read, Write};

fn case<R: Read, W: Write>(input: &mut R, out: &mut W) {
    let mut label = [0u8; 25];
    if input.read_exact(&mut label).is_err() {
        return;
    }
    let _ = out.write_all(&label);
    // Kept: a `match` on the letter, since the input names a case by it and each case reads an input of its own.
    match label[0] {
        b'b' => pack_case(input, out),
        b'c' => check_case(input, out),
        b'f' => file_case(input, out),
        b'h' => heading_case(input, out),
        letter => picture_case(input, out, letter),
    }
}

// At most 1,000 cases.
fn main(rt: HostRuntime) {
    let mut input = rt.stdin();
    let mut out = rt.stdout();
    for _ in 0..1000usize {
        case(&mut input, &mut out);
    }
}
