// The atomic boxes of a side as a set.
ghost use Rattle.std.specs.Prelude.{◌≡◌, ℕ};
ghost use Rattle.tables.specs.Atoms.{atom};
ghost use Rattle.tables.specs.Steps.{SoundRows};
ghost use Rattle.boxsets.specs.Sets.{is_in};

use atoms::atoms_of;
use base::filled;
use boxsets::Set;
use tables::BoxRow;

// The atomic boxes of a side.
// Kept: a number for the side, since it promises `atom` of any number; an array and a count, since there is no heap (fixed memory).
pub fn atom_set(boxes: &[u8], rows: &[u16], side: u8) -> Set
    requires { SoundRows boxes.now rows.now }
    ensures { (b : ℕ) → is_in result b ≡ atom boxes.now rows.now side b }
{
    let mut atoms: [u16; BoxRow::LIMIT] = filled(0);
    let count = atoms_of(boxes, rows, side, &mut atoms);
    Set::of(&atoms[..count])
}
