// The walk as a definition, and that it decides satisfaction. It has no code: the walk's is in `walk_visits`.
#![tactic(auto)]
