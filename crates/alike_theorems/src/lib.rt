// What holds of names that print alike, in specs/: the characters of a name and their encodings, what folding keeps, that
// a name's bytes fold as its characters do, the order of the names, and the pair that the call answers. It has no code.
#![tactic(auto)]
