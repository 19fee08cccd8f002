// Which users are answered alike: two users with the same tails of the mode's arrows around them have the same answers. So each kind of
// user is answered once, wherever its users stand.
//
// `closure` and `heads` are those of crate `user_rows`.
#![tactic(auto)]

ghost use Rattle.std.specs.Prelude.{◌≡◌, ℕ, ◌+◌, ◌<◌, ◌≤◌, length, get_or};
ghost use Rattle.tables.specs.Rows.{Picture, user};
ghost use Rattle.tables.specs.Atoms.{atoms};
ghost use Rattle.boxsets.specs.Sets.{Boxes};
ghost use Rattle.mode_sets.specs.Steps.{ModeSets};
ghost use Rattle.certificates.specs.Steps.{Drawn};
ghost use Rattle.user_kinds.specs.Steps.{TailsNear, Noted, Alike, note_count};

use boxsets::Set;
use containment::Closure;
use mode_sets::Heads;
use set_tables::set_at;

// How many notes there are: a prime by which the powers of 2 up to 2 to the 63 leave different remainders, so that neither single groups
// nor groups nested in each other share a note while their numbers lie in one word.
const NOTES: usize = 107;

// The notes of a mode.
// Kept: 0 for no user, since Options of 16 bits would take twice the 214 bytes (fixed memory).
pub type Notes = [u16; NOTES];

// The tails of the mode's arrows around a user.
fn tails_near(closure: &Closure, heads: &Heads, user: usize) -> Set
    requires { user < 256 }
    ensures { (pic : Picture) (m : ℕ) → Drawn pic closure.now → ModeSets pic.arrows m heads.now
        → user < length pic.boxes → TailsNear pic m user result }
{
    let tails = set_at(heads, 512) | set_at(heads, 513);
    set_at(closure, 256 + user) & tails
}

// Which note is that of users with these tails. Users with other tails may share it.
fn note_of(tails: Set) -> usize
    ensures { result < note_count }
{
    ((tails.a ^ tails.b ^ tails.c ^ tails.d) % NOTES as u64) as usize
}

// The place of a user before place i who is answered as the user at i, or i. A note has the place behind that of the last user who was
// looked at and had that note, or 0; of a place that 16 bits do not hold, which no call has, it would have the remainder.
// Kept: a place and no Option, since a user before whom none is answered alike stands for its own kind (`Alike` of itself).
pub fn alike(closure: &Closure, heads: &Heads, users: &[u16], i: usize, notes: &mut Notes) -> usize
    requires { Boxes users.now × (i < length users.now) × Noted i notes.old }
    ensures upper_bound { (result ≤ i) × Noted (i + 1) notes.new }
    ensures alike { (pic : Picture) (m : ℕ) → Drawn pic closure.now → ModeSets pic.arrows m heads.now
        → users.now ≡ atoms pic.boxes pic.rows user
        → Alike pic m (get_or users.now result 0) (get_or users.now i 0) }
{
    let tails = tails_near(closure, heads, usize::from(users[i]));
    let note = note_of(tails);
    let before = usize::from(notes[note]).checked_sub(1);
    notes[note] = ((i + 1) % 65536) as u16;
    if let Some(j) = before {
        let known = tails_near(closure, heads, usize::from(users[j]));
        if tails == known {
            return j;
        }
    }
    i
}
