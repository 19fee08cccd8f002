// The answers of one user for many files at once, from sets of boxes: the arrows of a mode are walked in rising order, and each takes the
// files at which it is a certificate.
//
// In what follows `closure` is the table of containment (crate `containment`): set b has the boxes that b is or contains, set 256 + b those
// that are b or contain it. `heads` and `own` are what `mode_sets::take_mode` makes of the arrows of a mode.
#![tactic(auto)]

mod around;
mod numbers;
mod walk;

pub use around::Around;
use boxsets::Set;
pub use walk::{answer_row, entry_of, sort_row};

// What is found for a user: of the asked files those that are granted, and those that are unclear.
#[derive(Clone, Copy, Debug)]
pub struct Row {
    pub granted: Set,
    pub unclear: Set,
}
