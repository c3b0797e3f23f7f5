// The bench: definitions in specs/ and theorems in proofs/, no code that runs.
#![tactic(auto)]
