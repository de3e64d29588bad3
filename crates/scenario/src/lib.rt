#![tactic(auto)]
// Scenarios: one line of text to what it says.
pub mod line;
pub mod numbers;
mod words;
