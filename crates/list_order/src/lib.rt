// How the list of a mode is found, on sets: arrow after arrow, by how each stands to the list so far. For each user `left` has the files
// that the list does not reach yet, `granted` those that are granted. `closure` is the table of containment, `own` the mode's arrows
// without repeats: a repeat never reaches anything new.
// Kept: facts of `arrows` and `own` stand in the contracts, since `order` asks for them of its callers and may take no narrower type.
#![tactic(auto)]

ghost use Rattle.std.specs.Prelude.{◌≡◌, MatchOption, not, [], ℕ, ◌≤◌, ◌<◌, length};
ghost use Rattle.std.specs.List.{position};
ghost use Rattle.tables.specs.Rows.{Picture, arrow_count, arrow_at};
ghost use Rattle.boxsets.specs.Sets.{is_in, set_at};
ghost use Rattle.mode_sets.specs.Steps.{Small, Numbers};
ghost use Rattle.list_meaning.specs.Steps.{Table, unreached};
ghost use Rattle.list_order.specs.Steps.{Done, SpentBefore, NoneFree, NextFree, MarkedTo, Takes, Clear, Ordered};

use base::filled;
use boxsets::Set;
use containment::Closure;
use list_standing::{Standing, look};
use set_tables::{Table, put_set, set_at};
use tables::Arrow;

// Whether the arrow at each place of `own` is known to be spent. What is spent stays so.
type Marks = [bool; Arrow::LIMIT];

// The first place whose arrow is free. What is marked is not looked at again, and the places before `from` are not even read.
fn next_free(
    closure: &Closure,
    arrows: &[u16],
    own: &[u16],
    left: &Table,
    granted: &Table,
    done: &mut Marks,
    from: usize,
) -> Option<usize>
    requires small { Small arrows.now × Numbers arrows.now own.now × (length own.now ≤ 512) }
    requires done { Done closure.now arrows.now own.now left.now granted.now done.old }
    requires spent_before { SpentBefore closure.now arrows.now own.now left.now granted.now from }
    ensures next_free { MatchOption result (NoneFree closure.now arrows.now own.now left.now granted.now (length own.now))
        (λ i. NextFree closure.now arrows.now own.now left.now granted.now i) }
    ensures done { Done closure.now arrows.now own.now left.now granted.now done.new }
{
    for i in from..own.len() {
        if done[i] {
            continue;
        }
        let standing = look(closure, arrows, left, granted, usize::from(own[i]));
        if standing == Standing::Free {
            return Some(i);
        }
        done[i] = standing == Standing::Spent;
    }
    None
}

// The first place that is not marked.
fn first_open(done: &[bool]) -> Option<usize>
    ensures { result ≡ position not done.now }
{
    done.iter().position(|marked| !*marked)
}

// The same from `from` on, or the number of places: the next search begins there.
// Kept: a number where none is open too, since the search goes over the places from it on, and there are none then.
fn open_from(done: &[bool], from: usize) -> usize
    requires { from ≤ length done.now }
    ensures { (result ≤ length done.now) × MarkedTo done.now from result }
{
    match first_open(&done[from..]) {
        Some(k) => from + k,
        None => done.len(),
    }
}

// Takes the files from what each of the users has left.
fn take_files(users: Set, files: Set, left: &mut Table)
    ensures { Takes (is_in users) files left.old left.new }
{
    for u in users {
        let kept = set_at(left, u) - files;
        put_set(left, u, kept);
    }
}

// Takes the pairs of arrow k from what is left.
fn take_arrow(closure: &Closure, arrows: &[u16], k: usize, left: &mut Table)
    requires { Small arrows.now × (k < arrow_count arrows.now) }
    ensures { Takes (is_in (set_at closure.now (arrow_at arrows.now k).tail))
        (set_at closure.now (arrow_at arrows.now k).head) left.old left.new }
{
    let a = Arrow::at(arrows, k);
    let users = set_at(closure, usize::from(a.tail));
    let files = set_at(closure, usize::from(a.head));
    take_files(users, files, left);
}

// Writes the list and answers its length: at each place the lowest arrow that is free, until there is none. `left` has all pairs at the
// start, and at the end those that the list does not reach.
pub fn order(
    closure: &Closure,
    arrows: &[u16],
    own: &[u16],
    left: &mut Table,
    granted: &Table,
    out: &mut [u16],
) -> usize
    requires { Small arrows.now × Numbers arrows.now own.now
        × (length own.now ≤ 512) × (length own.now ≤ length out.old) }
    ensures { (pic : Picture) (m : ℕ)
        → Clear pic m closure.now arrows.now own.now granted.now
        → Table pic (unreached pic []) left.old
        → Ordered pic m out.old result out.new left.new }
{
    let mut done: Marks = filled(false);
    let mut from = 0;
    // Kept: places are counted, since one is written at each turn, and the count is the answer.
    for count in 0..own.len() {
        let Some(i) = next_free(closure, arrows, own, left, granted, &mut done, from) else {
            return count;
        };
        out[count] = own[i];
        take_arrow(closure, arrows, usize::from(own[i]), left);
        done[i] = true;
        from = open_from(&done[..own.len()], from);
    }
    own.len()
}
