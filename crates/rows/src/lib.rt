#![tactic(auto)]

// Rows are defined and proved here; nothing is computed.
