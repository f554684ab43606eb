// What whole sstables keep: laws in the words of entries, calls and answers.
#![tactic(auto)]

pub mod call;
pub mod run;
#[cfg(test)]
mod tests;
