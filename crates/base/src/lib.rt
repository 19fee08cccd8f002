// What every crate needs and knows nothing of pictures: arrays of one value.
#![tactic(auto)]

ghost use Rattle.std.specs.Prelude.{◌≡◌, replicate};

// An array whose places all hold one value.
pub fn filled<T: Copy, const N: usize>(value: T) -> [T; N]
    ensures { result ≡ replicate N value }
{
    [value; N]
}
