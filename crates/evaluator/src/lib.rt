// The evaluator: the values of a table's nodes under a reading, and whether a number beyond the limit was met.
#![tactic(auto)]

pub mod decoded;
pub mod lookups;
pub mod places;
pub mod ranges;
pub mod walk;
