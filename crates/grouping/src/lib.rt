#![tactic(auto)]

// Points grouped by node, and what the calls on a batch share: definitions and laws alone.
