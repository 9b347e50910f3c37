#![tactic(auto)]

// Heartbeat tokens: purses, beats and runs of beats, and what is promised of them: definitions in specs/, the laws in proofs/. There is
// no code here.
