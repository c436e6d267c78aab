#![tactic(auto)]

// What holds of the columns that a salvage gives, and of the call that is lent room for them: document 02, order 8. Theorems, no code.
