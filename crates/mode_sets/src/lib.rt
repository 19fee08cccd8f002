// The arrows of a mode as sets: set 256 × sign + t of a table has the heads of its arrows of that sign from tail t, set 512 + sign has
// their tails. An arrow whose ends and sign an earlier one has changes no answer and is passed over.
#![tactic(auto)]

ghost use Rattle.std.specs.Prelude.{◌≡◌, ◌+◌, ◌<◌, ◌≤◌, length};
ghost use Rattle.base.specs.Buffers.{written, zeros};
ghost use Rattle.mode_sets.specs.Mode.{own_arrows};
ghost use Rattle.mode_sets.specs.Steps.{Small, ModeSets, Took, heads_words};

use set_tables::{add, has};
use tables::Arrow;

// The words of the sets of a mode: a set for each sign and tail, and one for each sign.
const HEADS_WORDS: usize = 2056;

// The sets of a mode.
pub type Heads = [u64; HEADS_WORDS];

// Adds an arrow to the sets; false if its head is there already, from its tail and of its sign.
fn take_arrow(heads: &mut Heads, a: Arrow) -> bool
    requires { (a.tail < 256) × (a.head < 256) × (a.sign ≤ 1) }
    ensures { Took heads.old a result heads.new }
{
    let tail = usize::from(a.tail);
    let head = usize::from(a.head);
    let sign = usize::from(a.sign);
    if has(heads, 256 * sign + tail, head) {
        return false;
    }
    add(heads, 256 * sign + tail, head);
    add(heads, 512 + sign, tail);
    true
}

// Fills the sets of a mode, and writes the numbers of its arrows that repeat no earlier one, rising; answers how many.
// Kept: a lent buffer and a count, and a loop over numbers: there is no heap (fixed memory), and the number of an arrow is what is written.
pub fn take_mode(arrows: &[u16], mode: u16, own: &mut [u16], heads: &mut Heads) -> usize
    requires { Small arrows.now × (512 ≤ length own.old) × (heads.old ≡ zeros heads_words) }
    ensures value { result ≡ length (own_arrows arrows.now mode) }
    ensures own_after { own.new ≡ written (own_arrows arrows.now mode) own.old }
    ensures mode_sets { ModeSets arrows.now mode heads.new }
{
    let mut count = 0;
    for k in 0..arrows.len() / 4 {
        let a = Arrow::at(arrows, k);
        if a.mode == mode && take_arrow(heads, a) {
            own[count] = k as u16;
            count += 1;
        }
    }
    count
}
