#![tactic(auto)]

// The cell that the search finds is the one in which a further source changes the tree: proved here; nothing is computed.
