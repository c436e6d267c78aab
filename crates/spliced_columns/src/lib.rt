#![tactic(auto)]

// The columns of a tree with one source more, where the one cell that it changes is not split: defined and proved here; nothing is computed.
