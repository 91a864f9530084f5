// The written form of a tree: definitions and laws, and no code.
#![tactic(auto)]
