// Theory alone: the cells of the cascade and the hub of `rules` are tied, call by call.
#![tactic(auto)]
