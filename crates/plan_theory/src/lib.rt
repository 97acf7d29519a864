// Theory alone: a plan is taken just where it draws a tree within the limits, and its tables are then a plan as `rules` asks for it.
#![tactic(auto)]
