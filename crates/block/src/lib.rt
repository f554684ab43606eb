// Reading blocks and their entries.
#![tactic(auto)]

pub mod block_reader;
pub mod delta;
mod entry;
pub mod fault;
pub mod found;
pub mod frame;
pub mod header;
pub mod keys;
mod position;
pub mod reader;
