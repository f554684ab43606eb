// Numbers and value codecs.
#![tactic(auto)]

pub mod fault;
pub mod range;
mod rises;
mod sums;
pub mod u64_monotonic;
pub mod value;
pub mod vint;
pub mod void;
