#![tactic(auto)]

// Whole numbers: laws of ℤ for the crates above. The crate has no code; specs/ is its content.
