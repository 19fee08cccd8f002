// How the parts of a block are written into the file: each function puts its bytes at a place.
ghost use Rattle.std.specs.Prelude.{◌≡◌, ◌+◌, ◌≤◌, length, take, drop};
ghost use Rattle.std.proofs.lemmas.List.Edits.{sets};
ghost use Rattle.base.specs.Buffers.{zeros};
ghost use Rattle.blocks.specs.Fnv.{fnv1a};
ghost use Rattle.packing.specs.Packed.{bytes32, head_bytes};

use blocks::Check;

// Writes bytes one after the other.
pub(crate) fn put(bytes: &[u8], at: usize, file: &mut [u8])
    requires { at + length bytes.now ≤ length file.old }
    ensures { file.new ≡ sets file.old at bytes.now }
{
    file[at..at + bytes.len()].copy_from_slice(bytes);
}

// Writes a block's head. Kept: the kind is the byte that the file has, since the promise is `head_bytes` of any number.
pub fn put_head(kind: u8, number: u16, count: u16, at: usize, file: &mut [u8])
    requires { at + 8 ≤ length file.old }
    ensures { file.new ≡ sets file.old at (head_bytes kind number count) }
{
    let n = number.to_le_bytes();
    let c = count.to_le_bytes();
    put(&[kind, 0, n[0], n[1], c[0], c[1], 0, 0], at, file);
}

// Writes zeros.
pub fn put_zeros(count: usize, at: usize, file: &mut [u8])
    requires { at + count ≤ length file.old }
    ensures { file.new ≡ sets file.old at (zeros count) }
{
    file[at..at + count].fill(0);
}

// Writes the check of the 508 bytes from a place on behind them.
pub fn put_check(at: usize, file: &mut [u8])
    requires { at + 512 ≤ length file.old }
    ensures { file.new
        ≡ sets file.old (at + 508) (bytes32 (fnv1a (take 508 (drop at file.old)))) }
{
    let to = at + Check::COVERED;
    let check = Check::fresh().part(&file[at..to]);
    put(&check.state.to_le_bytes(), to, file);
}
