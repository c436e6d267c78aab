#![tactic(auto)]

// The nodes of a tree with one source more, around the one cell that it changes: defined and proved here; nothing is computed.
