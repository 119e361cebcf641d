// Lines of input and what answers them: taking a line from standard input, and the bytes that the clip program prints for it.
#![tactic(auto)]

pub mod answers;
pub mod input;
pub mod visitor;
