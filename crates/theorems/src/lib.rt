// Theorems about the definition: statements in specs/, proofs in proofs/. The crate has no code.
#![tactic(auto)]
