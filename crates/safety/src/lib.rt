#![tactic(auto)]

// Demand 3: its statement is in specs/, its proof in proofs/. There is no code here.
