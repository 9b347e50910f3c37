#![tactic(auto)]

// The numbers in a table: other numbers for the same program, and the tidy table.
