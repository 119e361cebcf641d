// What the entries share: their answers, the checks that need no drawing, the survey of a path, `present`, and the filled part of a
// caller's list.
#![tactic(auto)]

pub mod admission;
pub mod answer;
pub mod part;
pub mod present;
pub mod survey;
