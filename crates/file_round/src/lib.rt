#![tactic(auto)]

// That what was written is read again is proved here; nothing is computed.
