// What each operation of the language makes of its operands' values under a reading, and whether a number beyond the limit was met.
#![tactic(auto)]

pub mod integers;
pub mod sums;
pub mod truths;
pub mod values;
