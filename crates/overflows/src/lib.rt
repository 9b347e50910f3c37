#![tactic(auto)]

// S-9: what an overflow is, and when a step is refused for one: definitions in specs/, the laws in proofs/. There is no code here.
