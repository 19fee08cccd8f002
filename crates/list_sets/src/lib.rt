// The sets that the list of a mode is found from: for each user the granted files, by check 12, and all files. And what the list leaves of
// them at the end, which is check 13.
// Kept: facts of `arrows` and `users` stand in the contracts, since `sort_mode`, `fill_left` and `check_left` ask for them of their callers
// and may take no narrower type.
#![tactic(auto)]

ghost use Rattle.std.specs.Prelude.{◌≡◌, List, [], ℕ, ◌≤◌, length};
ghost use Rattle.base.specs.Buffers.{written, zeros};
ghost use Rattle.tables.specs.Refusals.{verdict_of};
ghost use Rattle.tables.specs.Rows.{Picture};
ghost use Rattle.mode_sets.specs.Mode.{own_arrows};
ghost use Rattle.mode_sets.specs.Steps.{Small};
ghost use Rattle.user_rows.specs.Steps.{Sized, Moded, Ready};
ghost use Rattle.boxsets.specs.Sets.{Boxes, table_words};
ghost use Rattle.list_meaning.specs.Greedy.{greedy, order_fault};
ghost use Rattle.list_meaning.specs.Steps.{Table, unreached, granted_to};
ghost use Rattle.list_sets.specs.Steps.{Check12};

use base::filled;
use boxsets::Set;
use containment::Closure;
use mode_sets::{Heads, take_mode};
use set_tables::{Table, put_set, set_at};
use tables::Refusal;
use user_kinds::{Notes, alike};
use user_rows::sort_row;

// What is asked: the mode, the atomic files, and how many pairs there are.
#[derive(Clone, Copy, Debug, PartialEq, Eq)]
pub struct Asked {
    pub mode: u16,
    pub files: Set,
    pub pairs: usize,
}

// Check 12, and the granted files of each user. A user who is answered as one before has the same ones, and no unclear pair either.
fn sort_rows(
    closure: &Closure,
    heads: &Heads,
    arrows: &[u16],
    own: &[u16],
    users: &[u16],
    asked: Asked,
    granted: &mut Table,
) -> Result<(), Refusal>
    requires { Sized closure.now heads.now arrows.now own.now × Boxes users.now × (granted.old ≡ zeros table_words) }
    ensures { (pic : Picture) → Ready pic closure.now arrows.now users.now asked.files
        → Moded pic asked.mode heads.now arrows.now own.now
        → Check12 pic asked.mode result granted.new }
{
    let mut notes: Notes = filled(0);
    for (i, user) in users.iter().enumerate() {
        let u = usize::from(*user);
        let j = alike(closure, heads, users, i, &mut notes);
        if j < i {
            let known = set_at(granted, usize::from(users[j]));
            put_set(granted, u, known);
            continue;
        }
        let row = sort_row(closure, heads, arrows, own, u, asked.files);
        if let Some(f) = row.unclear.first() {
            return Err(Refusal::UnclearPair(usize::from(asked.mode), u, f));
        }
        put_set(granted, u, row.granted);
    }
    Ok(())
}

// The same, and how many of the mode's arrows repeat none before.
// Kept: they lie in a lent buffer, of which their number is the answer (fixed memory).
pub fn sort_mode(
    closure: &Closure,
    arrows: &[u16],
    users: &[u16],
    asked: Asked,
    own: &mut [u16],
    granted: &mut Table,
) -> (usize, Result<(), Refusal>)
    requires { Small arrows.now × Boxes users.now × (512 ≤ length own.old) × (granted.old ≡ zeros table_words) }
    ensures count { result.0 ≡ length (own_arrows arrows.now asked.mode) }
    ensures own_after { own.new ≡ written (own_arrows arrows.now asked.mode) own.old }
    ensures check12 { (pic : Picture) → Ready pic closure.now arrows.now users.now asked.files
        → Check12 pic asked.mode result.1 granted.new }
{
    let mut heads: Heads = filled(0);
    let count = take_mode(arrows, asked.mode, own, &mut heads);
    let unclear = sort_rows(
        closure,
        &heads,
        arrows,
        &own[..count],
        users,
        asked,
        granted,
    );
    (count, unclear)
}

// All files for each user.
pub fn fill_left(users: &[u16], files: Set, left: &mut Table)
    requires { Boxes users.now × (left.old ≡ zeros table_words) }
    ensures { (pic : Picture) (closure arrows : List ℕ) → Ready pic closure arrows users.now files
        → Table pic (unreached pic []) left.new }
{
    for user in users {
        put_set(left, usize::from(*user), files);
    }
}

// The first granted pair that is left: refusal 13 names it.
pub fn check_left(users: &[u16], left: &Table, granted: &Table, mode: u16) -> Result<(), Refusal>
    requires { Boxes users.now }
    ensures { (pic : Picture) (closure arrows : List ℕ) (files : Set) → Ready pic closure arrows users.now files
        → Table pic (granted_to pic mode) granted.now → Table pic (unreached pic (greedy pic mode)) left.now
        → result ≡ verdict_of (order_fault pic mode) }
{
    for user in users {
        let u = usize::from(*user);
        let missed = set_at(left, u) & set_at(granted, u);
        if let Some(f) = missed.first() {
            return Err(Refusal::NoOrder(usize::from(mode), u, f));
        }
    }
    Ok(())
}
