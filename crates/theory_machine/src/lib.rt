// The plain machine: definitions and laws of moves, and no code.
#![tactic(auto)]
