// THE DEFINITION of both clippers, for people to read: specs/ is the crate's content, and it has no code.
#![tactic(auto)]
