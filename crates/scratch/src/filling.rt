// How the bytes that the caller lends are written: 1 where a box contains another, by the sets, and then 2 for each row.
ghost use Rattle.std.specs.Prelude.{◌≡◌, ℕ, ◌*◌, ◌<◌, ◌≤◌, length};
ghost use Rattle.boxsets.specs.Sets.{is_in, has};
ghost use Rattle.containment.specs.Contains.{contains};
ghost use Rattle.containment.specs.Steps.{RowsBelow, Both};
ghost use Rattle.scratch.specs.Steps.{filled, Square, Bytes, Cells, over, SameFrom, Ones, Room};

use boxsets::Set;
use tables::Containment;

// Sets the byte `at` + b for each b in a set.
fn spread_set(x: Set, scratch: &mut [u8], at: usize)
    requires { Room (is_in x) at scratch.old }
    ensures { Ones (is_in x) at scratch.old scratch.new }
{
    for b in x {
        scratch[at + b] = 1;
    }
}

// Byte a × n + b becomes 1 if set a has b, else 0.
fn spread(closure: &[u64], n: usize, scratch: &mut [u8])
    requires { (4 * n ≤ length closure.now) × Square n closure.now × (n * n ≤ length scratch.old) }
    ensures cells { Cells n (has closure.now) scratch.new }
    ensures same_from { SameFrom (n * n) scratch.old scratch.new }
{
    scratch[..n * n].fill(0);
    for a in 0..n {
        let x = set_tables::set_at(closure, a);
        spread_set(x, scratch, a * n);
    }
}

// Sets the byte of each row's pair of boxes to 2.
fn mark_direct(rows: &[u16], n: usize, scratch: &mut [u8])
    requires { RowsBelow n rows.now × (n * n ≤ length scratch.old) }
    ensures by_index { (g : ℕ → ℕ → ℕ) → Bytes n g scratch.old
        → Bytes n (over rows.now 2 g) scratch.new }
    ensures same_from { SameFrom (n * n) scratch.old scratch.new }
{
    for k in (0..rows.len() / 2).rev() {
        let row = Containment::at(rows, k);
        let o = usize::from(row.outer);
        let i = usize::from(row.inner);
        scratch[o * n + i] = 2;
    }
}

// Fills the scratch from the rows for n boxes, by sets that have what each box contains.
pub fn fill_scratch(rows: &[u16], n: usize, closure: &[u64], scratch: &mut [u8])
    requires rows_below { RowsBelow n rows.now × (n ≤ 256) × (n * n ≤ length scratch.old) }
    requires both { Both n (contains rows.now) closure.now }
    ensures { scratch.new ≡ filled n rows.now scratch.old }
{
    spread(closure, n, scratch);
    mark_direct(rows, n, scratch);
}
