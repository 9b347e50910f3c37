#![tactic(auto)]

// What the exported functions answer and leave, and what a host may conclude from it: definitions and laws, no code.
