// Reading a policy file: the numbers at its front, the records of its rules, the bounds of its variables. What a file is refused for is in the crate
// policycheck. A policy, its table of rules and a rule are slices, and the latter two begin in the middle of the first, as document 01 asks: so what holds of them
// stands in the contracts, and in no type.
#![tactic(auto)]

pub mod counts;
pub mod header;
pub mod part;
pub mod record;
pub mod shape;
pub mod valuation;
