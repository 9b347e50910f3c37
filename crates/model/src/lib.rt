#![tactic(auto)]

// The definitions of document 01 are in specs/, the laws about them in proofs/. There is no code here.
