#![tactic(auto)]

// What holds of the tree of a file that is not refused, and what of a file does not matter: document 02, order 6. Theorems, no code.
