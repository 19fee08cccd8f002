// The text of the test program's cases, whatever calls they are for: how numbers and tables are read from the input, how buffers and
// refusals are written to the output, and the buffers that the calls are lent.
#![tactic(auto)]

mod buffers;
mod reading;
mod writing;

pub use buffers::{Place, buffer, lent};
pub use reading::{number, table};
pub use writing::{put_field, show, show_reply};
