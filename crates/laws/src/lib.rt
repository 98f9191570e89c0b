// General definitions and lemmas, in specs/ alone: no code.
#![tactic(auto)]
