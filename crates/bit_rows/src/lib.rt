// Rows of bits in bytes that are lent: a table of sets, one row a set, each row rounded up to bytes.
#![tactic(auto)]

ghost use Rattle.std.specs.Prelude.{◌≡◌, ◌+◌, ◌*◌, ◌≤◌, length};
ghost use Rattle.base.specs.Buffers.{written};
ghost use Rattle.bit_rows.specs.Grid.{grid};
ghost use Rattle.boxsets.specs.Sets.{has};
ghost use Rattle.bit_rows.specs.Bits.{row_width, row_bits};
ghost use Rattle.bit_rows.specs.Steps.{set_byte, Laid};

// The bytes of a row of n bits.
pub fn row_width(n: usize) -> usize
    requires { n ≤ 256 }
    ensures { result ≡ row_width n }
{
    (n + 7) / 8
}

// Writes set a, whole, from `at` on: word after word, the lowest byte first.
fn put_set(sets: &[u64], a: usize, out: &mut [u8], at: usize)
    requires { (4 * a + 4 ≤ length sets.now) × (at + 32 ≤ length out.old) }
    ensures { Laid (set_byte sets.now a) at 32 (at + 32) out.old out.new }
{
    // Kept: an iterator over a part of `sets` is no plainer, since q gives the place to write too.
    for q in 0..4usize {
        let from = at + 8 * q;
        out[from..from + 8].copy_from_slice(&sets[4 * a + q].to_le_bytes());
    }
}

// Writes the first w bytes of set a from `at` on.
fn put_part(sets: &[u64], a: usize, w: usize, out: &mut [u8], at: usize)
    requires { (4 * a + 4 ≤ length sets.now) × (w ≤ 32) × (at + w ≤ length out.old) }
    ensures { Laid (set_byte sets.now a) at w (at + w) out.old out.new }
{
    let mut whole = [0u8; 32];
    put_set(sets, a, &mut whole, 0);
    out[at..at + w].copy_from_slice(&whole[..w]);
}

// Writes the first w bytes of set a from `at` on. Places behind them, before `end`, may be written too: where there is room, the whole set
// goes at once, which is quicker.
fn put_row(sets: &[u64], a: usize, w: usize, out: &mut [u8], at: usize, end: usize)
    requires { (4 * a + 4 ≤ length sets.now) × (w ≤ 32) × (at + w ≤ end) × (end ≤ length out.old) }
    ensures { Laid (set_byte sets.now a) at w end out.old out.new }
{
    if 32 <= end - at {
        put_set(sets, a, out, at);
        return;
    }
    put_part(sets, a, w, out, at);
}

// Writes the first n sets of a table as n rows of n bits. What a row leaves behind its own bytes is written over by the next one.
pub fn put_rows(sets: &[u64], n: usize, out: &mut [u8])
    requires { (n ≤ 256) × (4 * n ≤ length sets.now) × (n * row_width n ≤ length out.old) }
    ensures { out.new ≡ written (grid (row_bits (has sets.now)) n (row_width n)) out.old }
{
    let w = row_width(n);
    let end = n * w;
    // Kept: no iterator gives the places of the rows, since each is lent room that overlaps the next.
    for a in 0..n {
        put_row(sets, a, w, out, a * w, end);
    }
}
