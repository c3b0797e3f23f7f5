// What the program prints: definitions in specs/ and laws in proofs/, no code that runs.
#![tactic(auto)]
