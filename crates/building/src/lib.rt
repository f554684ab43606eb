// Sstables of u64 values from text: a line has a key in hexadecimal, a tab, and a value in decimal.
#![tactic(auto)]

pub mod fault;
mod line;
#[cfg(test)]
mod tests;
mod text;
mod whole;

pub use line::{Line, parse_line};
pub use text::build;
pub use whole::{OUTPUT_LEN, build_vec};
