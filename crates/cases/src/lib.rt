// Cases computed from the definitions. This crate has no code.
#![tactic(auto)]
