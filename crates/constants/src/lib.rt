// The constants of a card and the gates that they touch: definitions and laws in specs/ and proofs/, no code that runs.
#![tactic(auto)]
