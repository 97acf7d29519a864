// Theory alone: the demands of document 01 and what document 02 adds, for every list of the six calls.
#![tactic(auto)]
