// Writing sstables.
#![tactic(auto)]

mod calls;
pub mod fault;
pub mod keys;
mod limits;
mod open_block;
mod open_table;
pub mod phase;
mod questions;
pub mod writer;
