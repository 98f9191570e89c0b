// A free-list block and what its calls mean: definitions and theorems, no code.
#![tactic(auto)]
