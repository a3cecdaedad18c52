// Nothing that runs: what a caller does with translations, an index and the guest's writes, and what holds of it. Each theorem is what a
// function with an empty body promises, so that the check names it and fails where its proof is missing.
#![tactic(auto)]

pub mod entering;
pub mod keeping;
