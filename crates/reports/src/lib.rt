// What the test programs share: rows of numbers and bytes that stand in text, arithmetic, and tallies of cases with their printing.

#![tactic(auto)]

pub mod numbers;
pub mod tally;
pub mod text;
