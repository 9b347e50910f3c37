#![tactic(auto)]

// The first thread that can step, and steps by the first: definitions in specs/, the laws in proofs/. There is no code here.
