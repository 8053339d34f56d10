#![tactic(auto)]

// What the method promises; nothing is computed here.
