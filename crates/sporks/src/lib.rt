#![tactic(auto)]

// Which spork opened each open call, and that a child's arguments are those of its spork: definitions in specs/, the theorem in proofs/.
// There is no code here.
