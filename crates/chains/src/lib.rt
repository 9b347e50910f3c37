#![tactic(auto)]

// How deep calls go: definitions in specs/, laws and the theorem on started pools in proofs/. There is no code here.
