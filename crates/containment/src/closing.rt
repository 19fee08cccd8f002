// How one table of 512 sets of boxes is filled: set a has the boxes that a contains, set 256 + b those that contain b. Both halves
// are kept, so that a round reads both sides of its box as whole sets.
ghost use Rattle.std.specs.Prelude.{◌≡◌, ◌<◌, ◌≤◌};
ghost use Rattle.base.specs.Buffers.{zeros};
ghost use Rattle.containment.specs.Contains.{direct};
ghost use Rattle.containment.specs.Steps.{RowsBelow, through, rounds, selves, Both, Turns, closure_words};

use super::Closure;
use tables::Containment;

// Adds each row's pair of boxes.
pub fn mark_rows(rows: &[u16], closure: &mut Closure)
    requires rows_below { RowsBelow 256 rows.now }
    requires closure_value { closure.old ≡ zeros closure_words }
    ensures { Both 256 (direct rows.now) closure.new }
{
    for k in (0..rows.len() / 2).rev() {
        let row = Containment::at(rows, k);
        let o = usize::from(row.outer);
        let i = usize::from(row.inner);
        set_tables::add(closure, o, i);
        set_tables::add(closure, 256 + i, o);
    }
}

// Adds the ways through box k. Most boxes have none: they contain nothing, or nothing contains them.
fn round(closure: &mut Closure, k: usize)
    requires { k < 256 }
    ensures { Turns (λ f. through f k) closure.old closure.new }
{
    let down = set_tables::set_at(closure, k);
    let up = set_tables::set_at(closure, 256 + k);
    if down.is_empty() {
        return;
    }
    if up.is_empty() {
        return;
    }
    set_tables::join_each(closure, 0, up, down);
    set_tables::join_each(closure, 256, down, up);
}

// Adds the ways through each of n boxes in turn.
pub fn close(closure: &mut Closure, n: usize)
    requires { n ≤ 256 }
    ensures { Turns (λ f. rounds f n) closure.old closure.new }
{
    for k in 0..n {
        round(closure, k);
    }
}

// Adds each of n boxes to its own two sets.
pub fn add_selves(closure: &mut Closure, n: usize)
    requires { n ≤ 256 }
    ensures { Turns (λ f. selves f n) closure.old closure.new }
{
    for b in 0..n {
        set_tables::add(closure, b, b);
        set_tables::add(closure, 256 + b, b);
    }
}
