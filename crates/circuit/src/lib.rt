// A card as a function of the signal number: definitions and laws in specs/ and proofs/, no code that runs.
#![tactic(auto)]
