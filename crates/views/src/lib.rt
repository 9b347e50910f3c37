#![tactic(auto)]

// S-8: the two listings of a pool, and what is promised of them: definitions in specs/, the laws in proofs/. There is no code here.
