// The calculus and the logic of the paper (000), and satisfaction on trees: definitions and theorems, and no code.
#![tactic(auto)]
