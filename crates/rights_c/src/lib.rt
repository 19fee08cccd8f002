// The calls across the C boundary (`include/rights.h`): numbers and slices in, one reply out. A slice passes as a pointer and then
// a length in elements.
#![tactic(auto)]

ghost use Rattle.std.specs.Prelude.{◌≡◌, ◌*◌, length};
ghost use Rattle.base.specs.Search.{or_else};
ghost use Rattle.tables.specs.Rows.{picture, user as user_side, file as file_side};
ghost use Rattle.tables.specs.Refusals.{unless_refused};
ghost use Rattle.tables.specs.Atoms.{atoms};
ghost use Rattle.scratch.specs.Scratch.{scratch_after, early_fault, mode_early};
ghost use Rattle.meaning.specs.Meaning.{answer};
ghost use Rattle.answers.specs.Calls.{entry_fault, judge_fault, matrix_early, matrix_fault, bytes_after, numbers_after};
ghost use Rattle.list_meaning.specs.Greedy.{greedy, order_fault};
ghost use Rattle.list_meaning.specs.Calls.{list_early, list_before, list_after, work_after};
ghost use Rattle.headings.specs.Calls.{heading_fault, users_after, files_after};
ghost use Rattle.blocks.specs.Files.{picture_of};
ghost use Rattle.blocks.specs.Reads.{row_counts, read_fault};
ghost use Rattle.packing.specs.Packed.{packed};
ghost use Rattle.packing.specs.Packs.{pack_fault, file_after};
ghost use Rattle.rights_c.specs.Replies.{reply, done_reply, reply_by, entry_reply};
ghost use Rattle.rights_c.specs.Steps.{refused_reply, answer_reply, counts_reply};

use blocks::Counts;
use meaning::Entry;
use tables::{Numbers, Refusal, Tables};

// What a call answers: its kind, a refusal's number, and three numbers; 0 where nothing is named.
// Kept: numbers for the kind and the refusal, since the C interface needs them.
#[repr(C)]
#[derive(Clone, Copy)]
pub struct Reply {
    pub kind: u32,
    pub number: u32,
    pub a: u64,
    pub b: u64,
    pub c: u64,
}

impl From<Refusal> for Reply {
    ghost from_gives = { λ r x. x ≡ refused_reply r };

    fn from(r: Refusal) -> Self {
        let n = Numbers::from(r);
        Self {
            kind: 4,
            number: u32::from(n.number),
            a: n.first as u64,
            b: n.second as u64,
            c: n.third as u64,
        }
    }
}

// What a call answers where it is not refused.
trait Answer {
    ghost use Rattle.rights_c.specs.declared.Reply.{Reply};

    // the reply that shows it
    ghost shown_as: { Self → Reply };

    fn reply(self) -> Reply
        ensures { result ≡ shown_as self };
}

fn done(a: usize, b: usize, c: usize) -> Reply
    ensures { result ≡ done_reply a b c }
{
    Reply {
        kind: 5,
        number: 0,
        a: a as u64,
        b: b as u64,
        c: c as u64,
    }
}

// The judge and the matrix.
impl Answer for () {
    ghost shown_as = { λ _. done_reply 0 0 0 };

    fn reply(self) -> Reply {
        done(0, 0, 0)
    }
}

// The count of the list, and the length of a packed file.
impl Answer for usize {
    ghost shown_as = { λ n. done_reply n 0 0 };

    fn reply(self) -> Reply {
        done(self, 0, 0)
    }
}

// The two counts of the headings.
impl Answer for (usize, usize) {
    ghost shown_as = { λ p. done_reply p.0 p.1 0 };

    fn reply(self) -> Reply {
        done(self.0, self.1, 0)
    }
}

// The three row counts of a file.
impl Answer for Counts {
    ghost shown_as = { counts_reply };

    fn reply(self) -> Reply {
        done(self.boxes, self.containments, self.arrows)
    }
}

fn shown(kind: u32, a: u16, b: u16) -> Reply
    ensures { result ≡ reply kind 0 a b 0 }
{
    Reply {
        kind,
        number: 0,
        a: u64::from(a),
        b: u64::from(b),
        c: 0,
    }
}

impl Answer for Entry {
    ghost shown_as = { entry_reply };

    fn reply(self) -> Reply {
        match self {
            Entry::Granted(k) => shown(1, k, 0),
            Entry::Denied(k) => shown(0, k, 0),
            Entry::Default => shown(3, 0, 0),
            Entry::Unclear(p, n) => shown(2, p, n),
        }
    }
}

// A call's reply.
fn reply_of<T: Answer>(answer: Result<T, Refusal>) -> Reply
    ensures { result ≡ answer_reply T.shown_as answer }
{
    match answer {
        Ok(x) => x.reply(),
        Err(r) => Reply::from(r),
    }
}

#[unsafe(no_mangle)]
pub extern "C" fn rights_judge(
    boxes: &[u8],
    rows: &[u16],
    arrows: &[u16],
    scratch: &mut [u8],
) -> Reply
    ensures result_value { let pic = picture boxes.now rows.now arrows.now in
        result ≡ reply_by (judge_fault pic scratch.old) (done_reply 0 0 0) }
    ensures scratch_after { let pic = picture boxes.now rows.now arrows.now in
        scratch.new ≡ scratch_after (early_fault pic scratch.old) boxes.now rows.now
        scratch.old }
{
    let t = Tables {
        boxes,
        rows,
        arrows,
    };
    reply_of(answers::judge(t, scratch))
}

#[unsafe(no_mangle)]
pub extern "C" fn rights_entry(
    boxes: &[u8],
    rows: &[u16],
    arrows: &[u16],
    user: u16,
    file: u16,
    mode: u16,
    scratch: &mut [u8],
) -> Reply
    ensures result_value { let pic = picture boxes.now rows.now arrows.now in
        result ≡ reply_by (entry_fault pic scratch.old mode user file) (entry_reply (answer pic mode user file)) }
    ensures scratch_after { let pic = picture boxes.now rows.now arrows.now in
        scratch.new ≡ scratch_after (mode_early pic scratch.old mode) boxes.now rows.now
        scratch.old }
{
    let t = Tables {
        boxes,
        rows,
        arrows,
    };
    reply_of(answers::one_entry(t, scratch, user, file, mode))
}

#[unsafe(no_mangle)]
pub extern "C" fn rights_matrix(
    boxes: &[u8],
    rows: &[u16],
    arrows: &[u16],
    mode: u16,
    scratch: &mut [u8],
    bytes: &mut [u8],
    numbers: &mut [u16],
) -> Reply
    ensures result_value { let pic = picture boxes.now rows.now arrows.now in
        result ≡ reply_by (matrix_fault pic scratch.old mode bytes.old numbers.old) (done_reply 0 0 0) }
    ensures scratch_after { let pic = picture boxes.now rows.now arrows.now in
        scratch.new ≡ scratch_after (matrix_early pic scratch.old mode bytes.old numbers.old)
        boxes.now rows.now scratch.old }
    ensures bytes_after { let pic = picture boxes.now rows.now arrows.now in
        bytes.new ≡ bytes_after pic scratch.old mode bytes.old numbers.old }
    ensures numbers_after { let pic = picture boxes.now rows.now arrows.now in
        numbers.new ≡ numbers_after pic scratch.old mode bytes.old numbers.old }
{
    let t = Tables {
        boxes,
        rows,
        arrows,
    };
    reply_of(answers::matrix(t, scratch, mode, bytes, numbers))
}

#[unsafe(no_mangle)]
pub extern "C" fn rights_list(
    boxes: &[u8],
    rows: &[u16],
    arrows: &[u16],
    mode: u16,
    scratch: &mut [u8],
    list: &mut [u16],
    work: &mut [u8],
) -> Reply
    ensures result_value { let pic = picture boxes.now rows.now arrows.now in
        let before = list_before pic mode scratch.old list.old work.old in
        result ≡ reply_by (or_else before (order_fault pic mode)) (done_reply (length (greedy pic mode)) 0 0) }
    ensures scratch_after { let pic = picture boxes.now rows.now arrows.now in
        scratch.new ≡ scratch_after (list_early pic mode scratch.old list.old work.old)
        boxes.now rows.now scratch.old }
    ensures list_after { let pic = picture boxes.now rows.now arrows.now in
        list.new ≡ list_after pic mode (list_before pic mode scratch.old list.old work.old)
        list.old }
    ensures work_after { let pic = picture boxes.now rows.now arrows.now in
        work.new ≡ work_after pic mode (list_before pic mode scratch.old list.old work.old)
        work.old }
{
    let t = Tables {
        boxes,
        rows,
        arrows,
    };
    reply_of(lists::list(t, scratch, mode, list, work))
}

#[unsafe(no_mangle)]
pub extern "C" fn rights_atoms(
    boxes: &[u8],
    rows: &[u16],
    users: &mut [u16],
    files: &mut [u16],
) -> Reply
    ensures value { result ≡ reply_by (heading_fault boxes.now rows.now users.old files.old)
        (done_reply (length (atoms boxes.now rows.now user_side))
        (length (atoms boxes.now rows.now file_side)) 0) }
    ensures users_after { users.new
        ≡ users_after boxes.now rows.now users.old files.old }
    ensures files_after { files.new
        ≡ files_after boxes.now rows.now users.old files.old }
{
    reply_of(headings::atomic_boxes(boxes, rows, users, files))
}

#[unsafe(no_mangle)]
pub extern "C" fn rights_read(
    file: &[u8],
    boxes: &mut [u8],
    rows: &mut [u16],
    arrows: &mut [u16],
) -> Reply
    ensures result_value { let fault = read_fault file.now boxes.old rows.old arrows.old in
        let counts = row_counts (picture_of file.now) in
        result ≡ reply_by fault (done_reply counts.boxes counts.containments counts.arrows) }
    ensures boxes_after { let fault = read_fault file.now boxes.old rows.old arrows.old in
        boxes.new ≡ unless_refused fault (picture_of file.now).boxes boxes.old }
    ensures rows_after { let fault = read_fault file.now boxes.old rows.old arrows.old in
        rows.new ≡ unless_refused fault (picture_of file.now).rows rows.old }
    ensures arrows_after { let fault = read_fault file.now boxes.old rows.old arrows.old in
        arrows.new ≡ unless_refused fault (picture_of file.now).arrows arrows.old }
{
    reply_of(block_files::read(file, boxes, rows, arrows))
}

#[unsafe(no_mangle)]
pub extern "C" fn rights_pack(boxes: &[u8], rows: &[u16], arrows: &[u16], file: &mut [u8]) -> Reply
    ensures result_value { let pic = picture boxes.now rows.now arrows.now in
        result ≡ reply_by (pack_fault pic file.old) (done_reply (length (packed pic)) 0 0) }
    ensures file_after { let pic = picture boxes.now rows.now arrows.now in
        file.new ≡ file_after pic file.old }
{
    let t = Tables {
        boxes,
        rows,
        arrows,
    };
    reply_of(packer::pack(t, file))
}

// The version of these calls: major × 65,536 + minor × 256 + patch, of which major is 4 and the others 0.
#[unsafe(no_mangle)]
pub extern "C" fn rights_version() -> u32
    ensures { result ≡ 4 * 65536 }
{
    0x040000
}
