// The theorems of the VOB 24 rule pack, in specs/: what holds of a whole pack and of its sections in turn, layouts,
// bounds, refusal numbers, and that a text's characters are scalar values. It has no code.
#![tactic(auto)]
