// The three demands: statements in specs/, proofs in proofs/, no code that runs.
#![tactic(auto)]
