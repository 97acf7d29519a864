// Theory alone: what follows from the contract of `fit` (request 10 of document 02), by itself and in lists with the six calls.
#![tactic(auto)]
