// What a picture says of a pair: the four answers, and what each is in the matrix.
#![tactic(auto)]

ghost use Rattle.std.specs.Prelude.{◌≡◌};
ghost use Rattle.meaning.specs.Steps.{granting_of};

use tables::Arrow;

// The answer to one question (document 01, "Meaning").
#[derive(Clone, Copy, Debug, PartialEq, Eq)]
pub enum Entry {
    // Granted, with the lowest positive certificate.
    Granted(u16),
    // Denied, with the lowest negative certificate.
    Denied(u16),
    // Denied by default: no arrow of the mode reaches the pair.
    Default,
    // Unclear, with the lowest positive and the lowest negative arrow that reach the pair.
    Unclear(u16, u16),
}

// The arrow that grants: it is taken out of the answer, and the other three answers are turned away with the number of no arrow.
// Kept: a number, and no Option, since the promise of `granting` is `granting_of`, and the theorem `grants-by` reads its 65,535.
pub fn granting(e: Entry) -> u16
    ensures { result ≡ granting_of e }
{
    let Entry::Granted(k) = e else {
        return Arrow::NONE;
    };
    k
}
