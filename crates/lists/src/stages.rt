// The list of a mode, stage by stage, by the closure, the atomic users and what is asked.
ghost use Rattle.std.specs.Prelude.{◌≡◌, List, ℕ, ◌≤◌, length};
ghost use Rattle.std.specs.Prelude.{None as none};
ghost use Rattle.base.specs.Buffers.{written};
ghost use Rattle.tables.specs.Rows.{Picture};
ghost use Rattle.tables.specs.Refusals.{verdict_of};
ghost use Rattle.meaning.specs.Meaning.{mode_arrows};
ghost use Rattle.meaning.specs.Pairs.{pairs};
ghost use Rattle.mode_sets.specs.Steps.{Small, Numbers};
ghost use Rattle.user_rows.specs.Steps.{Ready};
ghost use Rattle.boxsets.specs.Sets.{Boxes};
ghost use Rattle.list_meaning.specs.Greedy.{greedy, order_fault};
ghost use Rattle.list_meaning.specs.Calls.{list_answer, list_after};
ghost use Rattle.list_meaning.specs.Steps.{Listing};
ghost use Rattle.list_meaning.specs.Lists.{list_room};
ghost use Rattle.list_order.specs.Steps.{Clear};

use base::filled;
use containment::Closure;
use list_order::order;
use list_sets::{Asked, check_left, fill_left, sort_mode};
use set_tables::Table;
use tables::{Arrow, Refusal};

// How many arrows the mode has.
// Kept: a chain that filters and counts is no plainer, since it needs a second function, whose contract says what it counts.
pub fn mode_count(arrows: &[u16], mode: u16) -> usize
    ensures { result ≡ length (mode_arrows arrows.now mode) }
{
    let mut count = 0;
    for k in 0..arrows.len() / 4 {
        if Arrow::at(arrows, k).mode == mode {
            count += 1;
        }
    }
    count
}

// Check 13: the list stays, or 65,535 goes into each needed place where it leaves a granted pair.
fn finish(
    left: Result<(), Refusal>,
    count: usize,
    need: usize,
    out: &mut [u16],
) -> Result<usize, Refusal>
    requires { need ≤ length out.old }
    ensures { (pic : Picture) (m : ℕ) (old : List ℕ)
        → left ≡ verdict_of (order_fault pic m) → count ≡ length (greedy pic m)
        → need ≡ list_room pic m → need ≤ length old → out.old ≡ written (greedy pic m) old
        → (result ≡ list_answer pic m none) × (out.new ≡ list_after pic m none old) }
{
    match left {
        Ok(()) => Ok(count),
        Err(refusal) => {
            out[..need].fill(Arrow::NONE);
            Err(refusal)
        }
    }
}

// The list, where no pair is unclear, and check 13.
fn list_clear(
    closure: &Closure,
    arrows: &[u16],
    own: &[u16],
    users: &[u16],
    asked: Asked,
    granted: &Table,
    out: &mut [u16],
) -> Result<usize, Refusal>
    requires users { Boxes users.now }
    requires small { Small arrows.now × Numbers arrows.now own.now × (length own.now ≤ 512) }
    requires own_in_bounds { (length own.now ≤ length out.old) × (length (mode_arrows arrows.now asked.mode) ≤ length out.old) }
    ensures { (pic : Picture)
        → Clear pic asked.mode closure.now arrows.now own.now granted.now
        → Ready pic closure.now arrows.now users.now asked.files
        → (result ≡ list_answer pic asked.mode none) × (out.new ≡ list_after pic asked.mode none out.old) }
{
    let files = asked.files;
    let mut left: Table = filled(0);
    fill_left(users, files, &mut left);
    let count = order(closure, arrows, own, &mut left, granted, out);
    let verdict = check_left(users, &left, granted, asked.mode);
    finish(verdict, count, mode_count(arrows, asked.mode), out)
}

// Check 12, and the list if it passes. The work bytes are cleared then.
// Kept: the mode's arrows lie in a buffer for all arrows, of which the first are lent on (fixed memory).
pub fn list_mode(
    closure: &Closure,
    arrows: &[u16],
    users: &[u16],
    asked: Asked,
    out: &mut [u16],
    work: &mut [u8],
) -> Result<usize, Refusal>
    requires small { Small arrows.now × Boxes users.now }
    requires mode_in_bounds { (length (mode_arrows arrows.now asked.mode) ≤ length out.old) × (asked.pairs ≤ length work.old) }
    ensures { (pic : Picture) → Ready pic closure.now arrows.now users.now asked.files
        → asked.pairs ≡ pairs pic
        → Listing pic asked.mode out.old work.old result out.new work.new }
{
    let mut own: [u16; Arrow::LIMIT] = filled(0);
    let mut granted: Table = filled(0);
    let (count, unclear) = sort_mode(closure, arrows, users, asked, &mut own, &mut granted);
    unclear?;
    work[..asked.pairs].fill(0);
    list_clear(closure, arrows, &own[..count], users, asked, &granted, out)
}
