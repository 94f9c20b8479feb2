// Names that print alike: the table of decompositions, the tables of names of a pack, and what the call answers, in
// specs/, with examples; what holds of the table, in proofs/. It has no code.
#![tactic(auto)]
