// Theory alone: what follows from the contract of `offers` (request 9 of document 02), by itself and in lists with the six calls.
#![tactic(auto)]
