// CORE, the search of one output: definition in specs/, theorems in proofs/.
#![tactic(auto)]
