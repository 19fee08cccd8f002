// Checks 1 to 7 on the three tables of a picture, 8 of an asked mode, and 9 for one buffer.
#![tactic(auto)]

ghost use Rattle.std.specs.Prelude.{◌≡◌, Bool, ◌&&◌, ℕ, ◌/◌, ◌%◌, ◌<◌, ◌≤◌, ltb};
ghost use Rattle.std.specs.List.{position};
ghost use Rattle.tables.specs.Rows.{shown};
ghost use Rattle.tables.specs.Refusals.{verdict_of};
ghost use Rattle.tables.specs.Faults.{ragged_fault, count_fault, byte_fault, names_no_box, across_sides, wrong_ends, wrong_mode};
ghost use Rattle.tables.specs.Faults.{row_fault, table_fault, mode_fault, room_fault};
ghost use Rattle.tables.specs.declared.Refusal.{Refusal};

use tables::{Arrow, BoxRow, Containment, Refusal, Tables, on_side, refuse_if, side_of};

// Check 1.
fn check_ragged(rows: usize, arrows: usize) -> Result<(), Refusal>
    ensures { result ≡ verdict_of (ragged_fault rows arrows) }
{
    refuse_if(rows % 2 != 0, Refusal::Ragged(1, rows))?;
    refuse_if(arrows % 4 != 0, Refusal::Ragged(2, arrows))
}

// Check 2, on counts of rows.
pub fn check_counts(boxes: usize, rows: usize, arrows: usize) -> Result<(), Refusal>
    ensures { result ≡ verdict_of (count_fault boxes rows arrows) }
{
    refuse_if(BoxRow::LIMIT < boxes, Refusal::TooMany(0, boxes))?;
    refuse_if(Containment::LIMIT < rows, Refusal::TooMany(1, rows))?;
    refuse_if(Arrow::LIMIT < arrows, Refusal::TooMany(2, arrows))
}

// The lowest box whose byte is above 3.
fn bad_byte(boxes: &[u8]) -> Option<usize>
    ensures { result ≡ position (ltb 3) boxes.now }
{
    boxes.iter().position(|byte| BoxRow::FOLDER < *byte)
}

// Check 3.
fn check_bytes(boxes: &[u8]) -> Result<(), Refusal>
    ensures { result ≡ verdict_of (byte_fault boxes.now) }
{
    match bad_byte(boxes) {
        Some(at) => Err(Refusal::BadByte(at)),
        None => Ok(()),
    }
}

// Check 4 of a row: it names a box that isn't there.
fn names_no_box(boxes: &[u8], row: Containment) -> bool
    ensures { result ≡ names_no_box boxes.now row }
{
    boxes.len() <= usize::from(row.outer) || boxes.len() <= usize::from(row.inner)
}

// Check 5 of a row: its boxes are there, and on two sides.
fn across_sides(boxes: &[u8], row: Containment) -> bool
    ensures { result ≡ across_sides boxes.now row }
{
    let outer = usize::from(row.outer);
    let inner = usize::from(row.inner);
    !names_no_box(boxes, row) && side_of(boxes[outer]) != side_of(boxes[inner])
}

// Check 6 of an arrow: its tail is no user box or its head no file box.
fn wrong_ends(boxes: &[u8], a: Arrow) -> bool
    ensures { result ≡ wrong_ends boxes.now a }
{
    let from_user = on_side(boxes, BoxRow::USER, usize::from(a.tail));
    !from_user || !on_side(boxes, BoxRow::FILE, usize::from(a.head))
}

// Check 7 of an arrow: its mode is above 7 or its sign above 1.
fn wrong_mode(a: Arrow) -> bool
    ensures { result ≡ wrong_mode a }
{
    7 < a.mode || 1 < a.sign
}

// One of the checks 4 to 7 on n rows: the lowest row that fails it is refused.
fn check_rows<F: Fn(usize) -> bool, R: Fn(usize) -> Refusal>(
    n: usize,
    fails: F,
    refusal: R,
) -> Result<(), Refusal>
    requires fails { (k : ℕ) → k < n → F.pre fails k }
    requires refusal { R.IsAlwaysCallable refusal }
    ensures { (bad : ℕ → Bool) (named : ℕ → Refusal)
        → ((k : ℕ) (b : Bool) → k < n → F.post fails k b → b ≡ bad k)
        → ((k : ℕ) (r : Refusal) → k < n → R.post refusal k r → r ≡ named k)
        → result ≡ verdict_of (row_fault named bad n) }
{
    for k in 0..n {
        if fails(k) {
            return Err(refusal(k));
        }
    }
    Ok(())
}

// Checks 1 to 7. Tables of the wrong shape are refused by their lengths alone.
pub fn check(t: Tables) -> Result<(), Refusal>
    ensures { result ≡ verdict_of (table_fault (shown t.entry)) }
{
    let row_count = t.rows.len() / 2;
    let arrow_count = t.arrows.len() / 4;
    check_ragged(t.rows.len(), t.arrows.len())?;
    check_counts(t.boxes.len(), row_count, arrow_count)?;
    check_bytes(t.boxes)?;
    check_rows(
        row_count,
        |k| names_no_box(t.boxes, Containment::at(t.rows, k)),
        Refusal::NoBox,
    )?;
    check_rows(
        row_count,
        |k| across_sides(t.boxes, Containment::at(t.rows, k)),
        Refusal::AcrossSides,
    )?;
    check_rows(
        arrow_count,
        |k| wrong_ends(t.boxes, Arrow::at(t.arrows, k)),
        Refusal::WrongEnds,
    )?;
    check_rows(
        arrow_count,
        |k| wrong_mode(Arrow::at(t.arrows, k)),
        Refusal::WrongMode,
    )
}

// Check 8.
pub fn check_mode(mode: u16) -> Result<(), Refusal>
    ensures { result ≡ verdict_of (mode_fault mode) }
{
    refuse_if(7 < mode, Refusal::NoMode(usize::from(mode)))
}

// Check 9 for one buffer.
pub fn check_room(buffer: usize, have: usize, need: usize) -> Result<(), Refusal>
    ensures { result ≡ verdict_of (room_fault buffer have need) }
{
    refuse_if(have < need, Refusal::TooShort(buffer, need))
}
