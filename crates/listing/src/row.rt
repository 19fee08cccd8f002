// A row of the listing: the pair lines of one mode and one user.
ghost use Rattle.base.specs.Search.{given};
ghost use Rattle.tables.specs.Refusals.{verdict_of};
ghost use Rattle.tables.specs.declared.Refusal.TheVariants.{UnclearPair};
ghost use Rattle.std.specs.Prelude.{ltb, ◌≡◌, ℕ, ◌+◌, ◌*◌, ◌<◌, ◌≤◌, length, get_or};
ghost use Rattle.tables.specs.Rows.{Picture};
ghost use Rattle.meaning.specs.Meaning.{answer, number_of};
ghost use Rattle.meaning.specs.Pairs.{files as files_of};
ghost use Rattle.boxsets.specs.Sets.{Boxes, among, low};
ghost use Rattle.mode_sets.specs.Steps.{Small};
ghost use Rattle.certificates.specs.Steps.{Drawn};
ghost use Rattle.user_rows.specs.Steps.{Sorts, blank_row};
ghost use Rattle.listing.specs.Steps.{RowPut};

use base::filled;
use boxsets::Set;
use containment::Closure;
use lines::{Line, Pen};
use mode_sets::Heads;
use tables::{Arrow, BoxRow, Refusal};
use user_rows::Row;

// The answers of a user for the files in a mode, and the number of the arrow of each file, by box number.
fn answers_of(
    closure: &Closure,
    arrows: &[u16],
    mode: u16,
    user: usize,
    files: &[u16],
    numbers: &mut [u16; BoxRow::LIMIT],
) -> Row
    requires { Small arrows.now × (user < 256)
        × Boxes files.now × (numbers.old ≡ blank_row) }
    ensures { (pic : Picture) → Drawn pic closure.now → arrows.now ≡ pic.arrows
        → user < length pic.boxes → Sorts pic mode user (among files.now) result
        × ((i : ℕ) → i < length files.now → get_or numbers.new (get_or files.now i 0) 0
        ≡ number_of (answer pic mode user (get_or files.now i 0))) }
{
    // Kept: an array with a count beside it, since there is no heap here.
    let mut own: [u16; Arrow::LIMIT] = filled(0);
    let mut heads: Heads = filled(0);
    let count = mode_sets::take_mode(arrows, mode, &mut own, &mut heads);
    let asked = Set::of(files);
    user_rows::answer_row(closure, &heads, arrows, &own[..count], user, asked, numbers)
}

// The first unclear file of a mode and a user as a refusal, if there is one.
fn first_unclear(files: Set, mode: u16, user: usize) -> Result<(), Refusal>
    ensures { result ≡ verdict_of (given (ltb (low files) 256) (UnclearPair mode user (low files))) }
{
    match files.first() {
        Some(file) => Err(Refusal::UnclearPair(usize::from(mode), user, file)),
        None => Ok(()),
    }
}

// Puts the row of a mode and a user.
pub fn put_row(
    closure: &Closure,
    arrows: &[u16],
    mode: u16,
    user: u16,
    files: &[u16],
    pen: &mut Pen,
) -> Result<(), Refusal>
    requires small { Small arrows.now × (user < 256) × Boxes files.now }
    requires files_in_bounds { pen.old.at + length files.now * 111 ≤ length pen.old.out.now }
    ensures same_buffer { pen.new.out.ghost_name ≡ pen.old.out.ghost_name }
    ensures out_len_unchanged { length pen.new.out.now ≡ length pen.old.out.now }
    ensures row_put { (pic : Picture) → Drawn pic closure.now → arrows.now ≡ pic.arrows
        → user < length pic.boxes → files.now ≡ files_of pic
        → RowPut pic mode user files.now pen.old pen.new result }
{
    let u = usize::from(user);
    let mut numbers: [u16; BoxRow::LIMIT] = filled(Arrow::NONE);
    let row = answers_of(closure, arrows, mode, u, files, &mut numbers);
    for file in files {
        let f = usize::from(*file);
        let e = user_rows::entry_of(closure, arrows, mode, row, u, f, numbers[f]);
        pen.line(Line::Pair(mode, user, *file, e));
    }
    first_unclear(row.unclear, mode, u)
}
