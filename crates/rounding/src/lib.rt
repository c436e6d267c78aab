#![tactic(auto)]

// How far an operation of IEEE 754 is off, over both signs: laws alone.
