#![tactic(auto)]

// Tree files are defined and proved here; nothing is computed.
