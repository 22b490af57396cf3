// The bytes and chains of the directory of resident pages as definitions, in specs/: this crate has no code.
#![tactic(auto)]
