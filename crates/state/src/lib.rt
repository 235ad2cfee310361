// No code: maps over texts, the Rust's records and the state, and their laws.
#![tactic(auto)]
