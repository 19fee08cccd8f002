// The reader of blocks: the caller's bytes together with a place, and what stands there.
#![tactic(auto)]

mod reader;

pub use reader::{BlockReader, head_after, head_at, head_of};
