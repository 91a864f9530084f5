// The call as the plain machine answers it: definitions and theorems, no code.
#![tactic(auto)]
