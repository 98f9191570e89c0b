// What is said of the calls that change a free-list block, together and in runs: definitions and theorems, no code.
#![tactic(auto)]
