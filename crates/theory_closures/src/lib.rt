// The closure machine, which moves as the plain machine does. It has no code: the engine's is in the crates whose names begin with `engine_`.
#![tactic(auto)]
