// Which box contains which, as sets of boxes for the layers above: how they are filled, and check 10.
#![tactic(auto)]

mod closing;

ghost use Rattle.std.specs.Prelude.{◌≡◌, ◌≤◌};
ghost use Rattle.tables.specs.Refusals.{verdict_of};
ghost use Rattle.containment.specs.Steps.{own_fault};

pub use closing::{add_selves, close, mark_rows};
use tables::Refusal;

// The words of a closure: two sets for each box.
const CLOSURE_WORDS: usize = 2048;

// Which box contains which: set a has the boxes that a contains, set 256 + b those that contain b.
pub type Closure = [u64; CLOSURE_WORDS];

// Check 10, by sets that have what each box contains: the lowest box whose set has it.
pub fn check_loops(closure: &Closure, n: usize) -> Result<(), Refusal>
    requires { n ≤ 256 }
    ensures { result ≡ verdict_of (own_fault n closure.now) }
{
    for b in 0..n {
        if set_tables::has(closure, b, b) {
            return Err(Refusal::InItself(b));
        }
    }
    Ok(())
}
