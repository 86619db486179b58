// The theory of names stands in specs/: this crate has no code.
#![tactic(auto)]
