// The trial cases of document 01 that are proved: see specs/ and proofs/.
#![tactic(auto)]
