// Reading block files: a file read into three lent tables.
#![tactic(auto)]

mod into_tables;
mod rows;

pub use into_tables::read;
