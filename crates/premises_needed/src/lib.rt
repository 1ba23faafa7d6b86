//! That none of document 01's eight premises can be left out of the third point: definitions and proofs alone, no code.
#![tactic(auto)]
