// A theory crate: definitions in specs/, laws in proofs/, no code.
#![tactic(auto)]
