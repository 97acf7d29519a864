// Document 01 as definitions (specs/) and the theorems about them (proofs/). No code: the hub that can be called is another crate.
#![tactic(auto)]
