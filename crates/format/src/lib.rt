// The kernel of formats: traces, formats, records and layouts in specs/, their theorems in proofs/.
// It has no code and no word of VOB: crate vob24 writes the rule pack over it.
#![tactic(auto)]
