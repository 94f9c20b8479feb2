// The VOB 24 rule pack: its grammar, its definitions of text, packed numbers, record, cost and calls, and examples of them, in
// specs/; the theorems that pin them, in specs/ and proofs/. It has no code: crate vob24_data has what the code shares of it.
#![tactic(auto)]
