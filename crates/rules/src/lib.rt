// Computed tests, and rules in checking order: definitions and their laws; and the rules as the errors of calls.
#![tactic(auto)]

pub mod refusal;

pub use refusal::Refusal;
