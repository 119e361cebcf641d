// The clip program's lines: reading one into a request, writing answers, and comparing them.
#![tactic(auto)]

pub mod comparing;
mod decimal;
mod fields;
mod line;
mod number;
mod numbers;
pub mod reading;
pub mod writing;
